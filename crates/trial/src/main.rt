// Runs the trial cases of the paper through the calls, and writes a line for each thing that a case states.
// Where the paper gives no number of entries read, the rules' number is expected: the levels that the walk reaches.
#![tactic(auto)]

mod guest; // guest.rt: the trial guest, and the calls on it
mod report; // report.rt: what a call came to, and the lines that are written

use crate::guest::{FLAGS_WITHOUT_NXE, FLAGS_WITHOUT_WP, Guest};
use crate::report::{Report, Told};

// One translation, afresh.
fn afresh<R: Print>(report: &mut Report<R>, name: &str, kind: u64, a: u64, expected: Told) {
    report.call(name, expected, Guest::new().translate(kind, a));
}

// A read and two writes of one page: the first write walks, to set the dirty bit.
fn read_and_writes<R: Print>(report: &mut Report<R>) {
    let mut guest = Guest::new();
    let read = guest.translate(0, 0x123);
    report.call("kind 0 at 0x123", Told::address(0x5123, 4), read);
    let page = guest.word(0x4000);
    report.word("kind 0 at 0x123, word at 0x4000", 0x5023, page);
    let top = guest.word(0x1000);
    report.word("kind 0 at 0x123, word at 0x1000", 0x2027, top);
    let write = guest.translate(1, 0x123);
    let walked = Told::address(0x5123, 4);
    report.call("kind 0 at 0x123, then kind 1", walked, write);
    let page = guest.word(0x4000);
    let dirty = "kind 0 at 0x123, then kind 1, word at 0x4000";
    report.word(dirty, 0x5063, page);
    let again = guest.translate(1, 0x123);
    let held = Told::address(0x5123, 0);
    report.call("kind 0 at 0x123, then kind 1 twice", held, again);
}

// A supervisor's write to a page that is not writable.
fn write_unprotected<R: Print>(report: &mut Report<R>) {
    let mut guest = Guest::new();
    report.call("WP off", Told::Done, guest.write_mode(FLAGS_WITHOUT_WP));
    let write = guest.translate(1, 0x1000);
    report.call("WP off, kind 1 at 0x1000", Told::address(0x5000, 4), write);
    let page = guest.word(0x4008);
    report.word("WP off, kind 1 at 0x1000, word at 0x4008", 0x5065, page);
}

// With NXE off a fault's code does not tell a fetch.
fn fetch_without_xd<R: Print>(report: &mut Report<R>) {
    let mut guest = Guest::new();
    report.call("NXE off", Told::Done, guest.write_mode(FLAGS_WITHOUT_NXE));
    let fetch = guest.translate(5, 0x3000);
    report.call("NXE off, kind 5 at 0x3000", Told::fault(4, 4), fetch);
}

// The rights of pages, and entries that are not there or have a reserved bit.
fn faults<R: Print>(report: &mut Report<R>) {
    afresh(report, "kind 3 at 0x123", 3, 0x123, Told::fault(5, 4));
    afresh(report, "kind 4 at 0x1000", 4, 0x1000, Told::fault(7, 4));
    afresh(report, "kind 1 at 0x1000", 1, 0x1000, Told::fault(3, 4));
    write_unprotected(report);
    afresh(report, "kind 5 at 0x2000", 5, 0x2000, Told::fault(0x15, 4));
    afresh(report, "kind 3 at 0x3000", 3, 0x3000, Told::fault(4, 4));
    afresh(report, "kind 5 at 0x3000", 5, 0x3000, Told::fault(0x14, 4));
    fetch_without_xd(report);
    afresh(report, "kind 0 at 0x4000", 0, 0x4000, Told::fault(9, 4));
}

// A page of 2 MiB and one of 1 GiB.
fn large_pages<R: Print>(report: &mut Report<R>) {
    let in_two_mib = Told::address(0x61_2345, 3);
    afresh(report, "kind 0 at 0x212345", 0, 0x21_2345, in_two_mib);
    let mut guest = Guest::new();
    let write = guest.translate(1, 0x4000_0010);
    let in_one_gib = Told::address(0x4000_0010, 2);
    report.call("kind 1 at 0x40000010", in_one_gib, write);
    let page = guest.word(0x2008);
    report.word("kind 1 at 0x40000010, word at 0x2008", 0x4000_00E3, page);
}

// The last address of the lower half, and the one after it.
fn ends<R: Print>(report: &mut Report<R>) {
    let after = "kind 0 at 0x0000800000000000";
    let refused = Told::Refused { number: 5 };
    afresh(report, after, 0, 0x8000_0000_0000, refused);
    let last = "kind 0 at 0x00007fffffffffff";
    afresh(report, last, 0, 0x7FFF_FFFF_FFFF, Told::fault(0, 1));
}

// A root outside guest memory, whose entries read as all ones.
fn root_outside<R: Print>(report: &mut Report<R>) {
    let mut guest = Guest::new();
    report.call("CR3 0x7000", Told::Done, guest.write_cr3(0x7000));
    let read = guest.translate(0, 0);
    report.call("CR3 0x7000, kind 0 at 0x0", Told::fault(9, 1), read);
}

// A root that is as wide as the processor, and one that is wider.
fn wide_roots<R: Print>(report: &mut Report<R>) {
    let wider = Guest::new().write_cr3(0x100_0000_0000);
    report.call("CR3 with bit 40", Told::Refused { number: 6 }, wider);
    let as_wide = Guest::new().write_cr3(0x80_0000_0000);
    report.call("CR3 with bit 39", Told::Done, as_wide);
}

// A global page outlives a write of CR3.
fn global_page<R: Print>(report: &mut Report<R>) {
    let mut guest = Guest::new();
    let read = guest.translate(0, 0x5000);
    report.call("kind 0 at 0x5000", Told::address(0x5000, 4), read);
    let written = guest.write_cr3(0x1000);
    report.call("kind 0 at 0x5000, then CR3 0x1000", Told::Done, written);
    let again = guest.translate(0, 0x5000);
    let held = Told::address(0x5000, 0);
    report.call(
        "kind 0 at 0x5000, then CR3 0x1000, then kind 0",
        held,
        again,
    );
}

fn main(rt: HostRuntime) {
    let mut report = Report::new(&rt);
    read_and_writes(&mut report);
    faults(&mut report);
    large_pages(&mut report);
    ends(&mut report);
    root_outside(&mut report);
    wide_roots(&mut report);
    global_page(&mut report);
    report.total();
}
