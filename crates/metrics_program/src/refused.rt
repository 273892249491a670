use crate::line_fault::LineFault;

/// A refusal on its way out: the line, from 1, and its fault.
#[derive(Clone, Copy)]
pub(crate) struct Refused {
    pub(crate) line: u64,
    pub(crate) fault: LineFault,
}
