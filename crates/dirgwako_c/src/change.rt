//! Changes, of which C publishes several as one version.
ghost use Rattle.std.specs.Prelude.{◌≡◌, ◌≤◌, ◌⊎◌, length, take, map, Some, All, OnOk, IfErr};
ghost use Rattle.dirgwako_c.specs.Changes.{op_in, IsOf, IsNoList};

use ledger_core::Op;

/// A change of a metric. Its words stand as those of an operation do, so that a list is copied and not converted.
#[repr(C)]
#[derive(Clone, Copy)]
pub struct Change {
    /// The id in the handle, which is that of its board.
    pub registry: u64,
    /// 0 a counter rises, 1 a value of a histogram is counted, 2 a gauge rises, 3 a gauge falls.
    pub kind: u64,
    /// The slot in the handle.
    pub slot: usize,
    /// What is added; of a value, the place of its bucket.
    pub by: u64,
    /// The value that is counted; of other kinds nothing.
    pub value: u64,
}

impl Change {
    /// The operation, if this is a kind.
    fn op(&self) -> Option<Op>
        ensures { result ≡ op_in self.now }
    {
        match self.kind {
            0 => Some(Op::Inc {
                counter: self.slot,
                by: self.by,
            }),
            1 => Some(Op::Observe {
                hist: self.slot,
                place: self.by as usize,
                value: self.value,
            }),
            2 => Some(Op::Up {
                gauge: self.slot,
                by: self.by,
            }),
            3 => Some(Op::Down {
                gauge: self.slot,
                by: self.by,
            }),
            _ => None,
        }
    }
}

/// The operations of these changes, at the front of a list that has room for them, if each is by a handle of the board of this
/// id, and of a kind.
///
/// # Errors
///
/// 47 and 39.
pub(crate) fn list_ops(list: &mut [Op], registry: u64, changes: &[Change]) -> Result<(), u32>
    requires few { length changes.now ≤ length list.old }
    ensures room { length list.new ≡ length list.old }
    ensures listed { OnOk result (map Some (take (length changes.now) list.new) ≡ map op_in changes.now) }
    ensures of_it { OnOk result (All (IsOf registry) changes.now) }
    ensures fault { IfErr result (IsNoList registry changes.now) }
{
    for place in 0..changes.len() {
        if changes[place].registry != registry {
            return Err(47);
        }
        let Some(op) = changes[place].op() else {
            return Err(39);
        };
        list[place] = op;
    }
    Ok(())
}
