//! What refusals are told as, where they tell of more than their cause.
use crate::asserts::{need, same};
use registry_state::{ChildFault, RegisterFault};
use scrape_http::WireFault;
use std::fmt::Display;
use std::process::Abort;

/// It is told so.
fn is_told(rt: &(impl Abort + AllocGlobal), fault: &impl Display, expected: &str) {
    let told = need(rt, format!(in rt.alloc(); "{fault}"));
    same(rt, told.as_str(), expected);
}

#[test]
fn texts(rt: HostRuntime) {
    let rt = &rt;
    let clash = RegisterFault::Clash { with: 3 };
    is_told(
        rt,
        &clash,
        "a name is shared with the lines of family 3, counted from 0 as they were registered",
    );
    let count = ChildFault::LabelCount { want: 2, got: 1 };
    is_told(rt, &count, "1 label values for 2 labels");
    let sent = WireFault::WriteFailed { sent: 50 };
    is_told(rt, &sent, "the writer failed after 50 bytes of the reply");
}
