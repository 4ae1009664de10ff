//! What `Display` shows of each fault of a whole call: the line that the program prints; and its exit status. The faults of
//! a layer are in `layer_tests`.

use super::Host;
use super::comparing::{same, same_items};
use std::fmt::Display;
use tigercanon::{CompareFault, Fault, PlanFault};
use tl_county::LinkFault::{self, LinkMissing};
use tl_load::LoadFault;
use tl_profile::ProfileFault::{self, TooSymmetric};
use tl_write::WriteFault;

/// The message of the fault is exactly this.
fn says<T: Display>(rt: &impl Host, fault: &T, text: &str) {
    let said = format!(in rt.alloc(); "{fault}").expect(rt, text);
    same_items(rt, text, said.as_bytes(), text.as_bytes());
}

/// The fault's line is `refused` and this text, and the program exits with this status.
fn is_refused(rt: &impl Host, fault: Fault, text: &str, status: u8) {
    let line = format!(in rt.alloc(); "refused {text}").expect(rt, text);
    says(rt, &fault, &line);
    same(rt, text, &fault.status(), &status);
}

/// Faulty lines, broken rules and clauses, devices that fail, and failed allocations in each layer.
fn of_each_layer() -> [(Fault, &'static str, u8); 9] {
    let (part, line, column) = (2, 34, 156);
    let (tlid, written) = (9_000_000_001, 229);
    let point = LoadFault::BadPoint { part, line, column };
    [
        (Fault::Load(point), "5 BadPoint 2 34 156", 3),
        (
            Fault::Link(LinkMissing { tlid }),
            "14 LinkMissing 9000000001",
            3,
        ),
        (Fault::Profile(TooSymmetric), "24 TooSymmetric", 3),
        (Fault::Load(LoadFault::Device), "8 Device", 4),
        (Fault::Write(WriteFault { written }), "10 WriteFault 229", 4),
        (Fault::Load(LoadFault::Memory), "9 Memory", 5),
        (Fault::Link(LinkFault::Memory), "9 Memory", 5),
        (Fault::Profile(ProfileFault::Memory), "9 Memory", 5),
        (Fault::Memory, "9 Memory", 5),
    ]
}

#[test]
fn faults_of_each_layer_are_reported(rt: HostRuntime) {
    for (fault, text, status) in of_each_layer() {
        is_refused(&rt, fault, text, status);
    }
}

#[test]
fn faults_of_two_sets_and_of_words_are_reported(rt: HostRuntime) {
    let fault = Fault::Memory;
    let second = CompareFault::In { set: 2, fault };
    says(&rt, &second, "refused 9 Memory in set 2");
    let fault = Fault::Link(LinkMissing { tlid: 7 });
    let first = CompareFault::In { set: 1, fault };
    says(&rt, &first, "refused 14 LinkMissing 7 in set 1");
    says(&rt, &CompareFault::Memory, "refused 9 Memory");
    says(&rt, &PlanFault::Memory, "refused 9 Memory");
    // For a command line without a plan, the message is the usage as it is.
    let text = "error: no such word\n\nUsage: tigercanon\n";
    let usage = String::from_str(rt.alloc(), text).expect(&rt, text);
    says(&rt, &PlanFault::Usage(usage), text);
}

/// A comparison's fault is shown as a derived `Debug` would show it.
#[test]
fn a_fault_of_a_comparison_is_shown_whole(rt: HostRuntime) {
    let fault = Fault::Link(LinkMissing { tlid: 7 });
    let in_set = CompareFault::In { set: 2, fault };
    let shown = format!(in rt.alloc(); "{in_set:?}").expect(&rt, "there is memory");
    let wanted = "In { set: 2, fault: Link(LinkMissing { tlid: 7 }) }";
    same(&rt, "a fault in a set", &shown.as_str(), &wanted);
}
