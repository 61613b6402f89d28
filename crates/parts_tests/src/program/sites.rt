//! What is printed of a site in memory, also where its disk calls or the output fail.

use cc_command_line::FormatWords;
use cc_flush::{Back, Flusher, format};
use cc_site::{Choice, Failing, MemorySite, Side, write_durably};
use cc_subcommands::{DumpScope, FormatOrder, dump_site, format_site};
use std::process::Abort;

// Two empty sides.
fn empty<R: Abort + AllocGlobal>(rt: &R) -> MemorySite {
    MemorySite::new(rt.alloc(), 0).expect(rt, "a site")
}

// Member 1 of 1.
fn order<R: Abort + AllocGlobal>(rt: &R) -> FormatOrder {
    let words = FormatWords {
        id: "1",
        initial: Some("1"),
        contacts: None,
        beta: None,
        gamma: None,
        share: None,
        cluster: None,
    };
    FormatOrder::parse(rt.alloc(), &words).expect(rt, "an order")
}

// A site that keeps it.
fn member<R: Abort + AllocGlobal>(rt: &R) -> MemorySite {
    let order = order(rt);
    let formatted = format(rt.alloc(), empty(rt), &order.opening());
    drop(order);
    match formatted {
        Ok(site) => site,
        Err(Back { site: _site, fault }) => panic!(rt; "the site isn't formatted: {fault}"),
    }
}

// The same behind a checkpoint.
fn moved<R: Abort + AllocGlobal>(rt: &R) -> MemorySite {
    match Flusher::open(rt.alloc(), member(rt)) {
        Ok((mut flusher, core)) => {
            drop(core);
            assert!(rt; !flusher.owes(), "outputs are owed");
            flusher.checkpoint().expect(rt, "a checkpoint");
            flusher.close()
        }
        Err(Back { site: _site, fault }) => panic!(rt; "the site isn't opened: {fault}"),
    }
}

// Of what stands on a site just this is told, and that is the status.
fn check_dump<R: Abort + AllocGlobal>(rt: &R, site: MemorySite, status: u8, wanted: &str) {
    let mut output = Vec::new(rt.alloc());
    let dumped = dump_site(rt.alloc(), site, DumpScope::Sides, &mut output);
    let ended = dumped.expect(rt, "a status");
    assert!(rt;
        ended == status && output.as_slice() == wanted.as_bytes(),
        "{wanted}"
    );
}

// The disk call that fails, and what is printed then: length, gate and generation of side A, length and gate of side B, and the
// first sync of opening.
const FAULTS: [(u64, &str); 6] = [
    (0, "fault Device A Length\n"),
    (1, "fault Device A Read\n"),
    (2, "fault Device A Read\n"),
    (3, "A armed 1\nfault Device B Length\n"),
    (4, "A armed 1\nfault Device B Read\n"),
    (5, "A armed 1\nB closed\nfault Device A Sync\n"),
];

// A fault takes the place of the lines to come. Then come a site of an open gate and a generation that is cut off, and one
// behind a checkpoint.
#[test]
fn a_site_is_dumped(rt: HostRuntime) {
    for &(at, wanted) in &FAULTS {
        let site = member(&rt);
        let mut image = site
            .image(rt.alloc(), &Choice::Read)
            .expect(&rt, "an image");
        drop(site);
        image.fuse(at, Failing::Stop);
        check_dump(&rt, image, 1, wanted);
    }
    let mut short = empty(&rt);
    write_durably(&mut short, Side::A, 0, &[0xA5, 0, 0]).expect(&rt, "side A is written");
    check_dump(
        &rt,
        short,
        1,
        "A armed short\nB closed\nfault Damaged A 1\n",
    );
    let wanted = "A closed\nB armed 2\nopened B records 0 events 0\n";
    check_dump(&rt, moved(&rt), 0, wanted);
}

// A fault of the site is printed. An output that takes nothing ends either command.
#[test]
fn faults_of_formatting_and_of_outputs_end_a_command(rt: HostRuntime) {
    let order = order(&rt);
    let mut site = empty(&rt);
    site.fuse(0, Failing::Once);
    let mut output = Vec::new(rt.alloc());
    let ended = format_site(rt.alloc(), site, &order, &mut output);
    assert!(rt; matches!(ended, Ok(1)));
    assert!(rt; output.as_slice() == b"Device A Length\n".as_slice());
    let mut full: &mut [u8] = &mut [];
    assert!(rt; format_site(rt.alloc(), empty(&rt), &order, &mut full).is_err());
    drop(order);
    let dumped = dump_site(rt.alloc(), member(&rt), DumpScope::Sides, &mut full);
    assert!(rt; dumped.is_err());
}
