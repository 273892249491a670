//! What tests assert.
ghost use Rattle.std.specs.Prelude.{◌≡◌, Ok};

use std::fmt::Debug;
use std::process::Abort;
use std::test::Fail;

/// Ends the test where the two differ, and tells both. As a call it is proved once, and not at each place that makes it.
pub(crate) fn same<T: PartialEq + Debug + Drop>(rt: &impl Abort, left: T, right: T) {
    assert_eq!(rt; left, right);
}

/// What a call answers that is not to be refused. Where it is, the test ends: so that its caller has one way out, and no drops on
/// another.
pub(crate) fn need<T, E: Debug>(rt: &impl Abort, answer: Result<T, E>) -> T
    ensures { answer ≡ Ok result }
{
    answer.expect(rt, "error")
}

/// The same of what helpers answer.
pub(crate) fn done<T>(rt: &impl Abort, answer: Result<T, Fail>) -> T
    ensures { answer ≡ Ok result }
{
    match answer {
        Ok(found) => found,
        Err(_) => rt.panic("a helper was refused"),
    }
}

/// What is to be there.
pub(crate) fn there<T>(rt: &impl Abort, found: Option<T>) -> T {
    found.expect(rt, "it is not there")
}

/// Ends the test where the names of a descriptor's samples are not these.
pub(crate) fn are_names(rt: &impl Abort, names: &[String], expected: &[&str]) {
    same(rt, names.len(), expected.len());
    for (number, own) in expected.iter().enumerate() {
        same(rt, there(rt, names.get(number)).as_str(), *own);
    }
}

/// What a call answers that was made once more, behind a refusal for want of memory. That it is refused again is told in other
/// words, by which a run with one allocation refused fails.
pub(crate) fn once_more<T, E: Drop>(rt: &impl Abort, answer: Result<T, E>) -> T
    ensures { answer ≡ Ok result }
{
    match answer {
        Ok(found) => found,
        Err(_) => rt.panic("refused when it was asked once more"),
    }
}

/// The same, as what a helper answers: where it is refused again, the test fails.
pub(crate) fn again<T, E: Drop>(answer: Result<T, E>) -> Result<T, Fail> {
    match answer {
        Ok(found) => Ok(found),
        Err(_) => Err("refused when it was asked once more".into()),
    }
}
