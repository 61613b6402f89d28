//! Folders that are made anew, formatted and told of, and what stands in them.

use crate::program::words::{format_of, with};
use cc_command_line::{FormatWords, WordFault};
use cc_site::{FileSite, NoOutlet};
use cc_subcommands::{DumpScope, FormatOrder, dump_folder, format_folder};
use std::fs;
use std::fs::{File, Files, Permissions};
use std::os::unix::fs::PermissionsExt;
use std::process::Abort;

// Entrant 4, whose one contact is node 1.
fn entrant() -> FormatWords<'static> {
    with(&format_of("4"), WordFault::Contacts, "1")
}

/// A member of two, with contact 3 and a share of 32.
pub fn member() -> FormatWords<'static> {
    FormatWords {
        id: "1",
        initial: Some("1,2"),
        contacts: Some("3"),
        beta: Some("2/3"),
        gamma: Some("4/5"),
        share: Some("32"),
        cluster: None,
    }
}

/// A new folder of that name.
pub fn made<R: Abort + AllocGlobal + Files>(rt: &R, folder: &str) {
    let _ = fs::remove_dir_all(rt, folder);
    fs::create_dir(rt, folder).expect(rt, "a folder");
}

/// Removes a folder, and what is in it.
pub fn remove<R: Abort + AllocGlobal + Files>(rt: &R, folder: &str) {
    fs::remove_dir_all(rt, folder).expect(rt, "the folder is removed");
}

/// Formats a folder for a node: the status is that, and just this is printed.
pub fn check_format<R: Abort + AllocGlobal + Files<File = File>>(
    rt: &R,
    folder: &str,
    words: &FormatWords<'_>,
    status: u8,
    wanted: &str,
) {
    let order = FormatOrder::parse(rt.alloc(), words).expect(rt, "an order");
    let mut output = Vec::new(rt.alloc());
    let ended = format_folder(rt, rt.alloc(), folder, &order, 42, &mut output);
    drop(order);
    let is_so = ended.expect(rt, "a status") == status;
    assert!(rt; is_so && output.as_slice() == wanted.as_bytes(), "{wanted}");
}

/// Tells what stands in a folder: the status, and what is printed.
pub fn dumped<R: Abort + AllocGlobal + Files<File = File>>(
    rt: &R,
    folder: &str,
    scope: DumpScope,
) -> (u8, String) {
    let mut output = Vec::new(rt.alloc());
    let ended = dump_folder(rt, rt.alloc(), folder, scope, &mut output);
    let status = ended.expect(rt, "a status");
    (status, String::from_utf8(output).expect(rt, "a text"))
}

fn check_dump<R: Abort + AllocGlobal + Files<File = File>>(
    rt: &R,
    folder: &str,
    status: u8,
    wanted: &str,
) {
    let (ended, output) = dumped(rt, folder, DumpScope::Sides);
    assert!(rt; ended == status && output.as_str() == wanted, "{wanted}");
}

// The bytes that are put in the place of the one byte that ends the state of entrant 4 and with it its side A, the status, and
// what is printed then.
const ENTRANTS: [(&[u8], u8, &str); 3] = [
    // Nothing, the record of one Enter, and a record with a bad length.
    (
        &[0],
        0,
        "A armed 1\nB closed\nopened A records 0 events 0\n",
    ),
    (
        &[0xA5, 0, 0, 0, 6, 1, 0, 0, 0, 1, 1, 0],
        0,
        "A armed 1\nB closed\nopened A records 1 events 1\n",
    ),
    (
        &[0xA5, 0, 0, 1, 0],
        1,
        "A armed 1\nB closed\nfault Damaged A 154\n",
    ),
];

const ENTRANT_LINES: &str =
    "A armed 1\nB closed\nopened A records 0 events 0\nnode 4\nbeta 4/5\ngamma 4/5\nshare 1\nstanding apart\nmembers none\npresent none\nleft none\nview []\nround none\nlink 1 owes 0 of 0 acknowledged 0 heard 0\nlink 4 owes 0 of 0 acknowledged 0 heard 0\nsessions 0 of 256\nposts made 0 kept 0 of 512\nanswers kept 0 of 256\n";

// The same once it has entered: each link owes the acknowledgement of its Enter.
const ENTERED_LINES: &str =
    "A armed 1\nB closed\nopened A records 1 events 1\nnode 4\nbeta 4/5\ngamma 4/5\nshare 1\nstanding entered, echoes 0, needs one of a member\nmembers none\npresent 4\nleft none\nview []\nround none\nlink 1 owes 1 of 1 acknowledged 0 heard 0\nlink 4 owes 1 of 1 acknowledged 0 heard 0\nsessions 0 of 256\nposts made 1 kept 1 of 512\nanswers kept 0 of 256\n";

// The node is told by each dump that isn't of the sides alone.
#[test]
fn a_folder_of_an_entrant_is_dumped(rt: HostRuntime) {
    const FOLDER: &str = "entrant_folder";
    const SIDE: &str = "entrant_folder/side-a";
    made(&rt, FOLDER);
    check_format(&rt, FOLDER, &entrant(), 0, "formatted 4\n");
    let (_, told) = dumped(&rt, FOLDER, DumpScope::Node);
    assert!(rt; told.as_str() == ENTRANT_LINES, "{told}");
    let mut side = fs::read(&rt, SIDE).expect(&rt, "a side");
    assert!(rt; side.len() == 154, "the side has another length");
    for &(bytes, status, wanted) in &ENTRANTS {
        side.truncate(153);
        side.extend_from_slice(bytes).expect(&rt, "room");
        fs::write(&rt, SIDE, &side).expect(&rt, "the side is written");
        check_dump(&rt, FOLDER, status, wanted);
        if bytes.len() == 12 {
            let (_, told) = dumped(&rt, FOLDER, DumpScope::Node);
            assert!(rt; told.as_str() == ENTERED_LINES, "{told}");
        }
    }
    remove(&rt, FOLDER);
}

// What is printed of sides that aren't there, or have no byte.
const EMPTY: &str = "A closed\nB closed\nfault NotFormatted\n";

// What is told of a folder of which that side can't be opened.
fn check_closed<R: Abort + AllocGlobal + Files<File = File>>(
    rt: &R,
    folder: &str,
    dumped: &str,
    formatted: &str,
) {
    check_dump(rt, folder, 1, dumped);
    check_format(rt, folder, &entrant(), 1, formatted);
}

// A folder that is missing, empty (the second time the files are there), held by another program, and with a folder in the
// place of side B.
#[test]
fn a_folder_that_cannot_be_opened_is_told(rt: HostRuntime) {
    const FOLDER: &str = "closed_folder";
    let _ = fs::remove_dir_all(&rt, FOLDER);
    check_closed(&rt, FOLDER, "fault Device A Length\n", "Device A Length\n");
    made(&rt, FOLDER);
    check_dump(&rt, FOLDER, 1, EMPTY);
    check_dump(&rt, FOLDER, 1, EMPTY);
    let holder = FileSite::open(&rt, rt.alloc(), FOLDER, NoOutlet).expect(&rt, "a site");
    check_closed(&rt, FOLDER, "fault Device A Length\n", "Device A Length\n");
    drop(holder);
    check_dump(&rt, FOLDER, 1, EMPTY);
    made(&rt, FOLDER);
    made(&rt, "closed_folder/side-b");
    check_closed(&rt, FOLDER, "fault Device B Length\n", "Device B Length\n");
    remove(&rt, FOLDER);
}

// An empty file that nobody may read or write, as side B. Nothing holds off a root user, for whom it is an empty side.
#[test]
fn a_file_without_permission_is_not_opened(rt: HostRuntime) {
    const FOLDER: &str = "folder_without_permission";
    const SIDE: &str = "folder_without_permission/side-b";
    made(&rt, FOLDER);
    fs::write(&rt, SIDE, b"").expect(&rt, "a file");
    fs::set_permissions(&rt, SIDE, Permissions::from_mode(0)).expect(&rt, "a closed file");
    let wanted = match File::open(&rt, SIDE) {
        Ok(_) => EMPTY,
        Err(_) => "fault Device B Length\n",
    };
    check_dump(&rt, FOLDER, 1, wanted);
    remove(&rt, FOLDER);
}

// Words of the right form for nodes that can't begin: one without a name, one of no cluster, a list that doesn't ascend, a
// fraction above 1, and shares of none and of more than 32.
const NO_NODES: [(WordFault, &str); 6] = [
    (WordFault::Id, "0"),
    (WordFault::Initial, "1,2"),
    (WordFault::Contacts, "2,1"),
    (WordFault::Beta, "5/4"),
    (WordFault::Share, "0"),
    (WordFault::Share, "33"),
];

#[test]
fn a_folder_is_formatted_once_for_a_node_that_can_begin(rt: HostRuntime) {
    const FOLDER: &str = "folder_formatted_twice";
    made(&rt, FOLDER);
    for &(place, text) in &NO_NODES {
        let words = with(&entrant(), place, text);
        check_format(&rt, FOLDER, &words, 1, "BadOpening\n");
    }
    check_dump(&rt, FOLDER, 1, EMPTY);
    check_format(&rt, FOLDER, &member(), 0, "formatted 1\n");
    check_format(&rt, FOLDER, &member(), 1, "AlreadyFormatted\n");
    check_format(&rt, FOLDER, &entrant(), 1, "AlreadyFormatted\n");
    remove(&rt, FOLDER);
}

// Makes a folder, formats it for member 1 of 1 of that share, and gives its side A.
fn side_of_share<R: Abort + AllocGlobal + Files<File = File>>(
    rt: &R,
    share: Option<&str>,
) -> Vec<u8> {
    const FOLDER: &str = "folder_of_share";
    let member = with(&format_of("1"), WordFault::Initial, "1");
    let words = FormatWords { share, ..member };
    made(rt, FOLDER);
    check_format(rt, FOLDER, &words, 0, "formatted 1\n");
    let side = fs::read(rt, "folder_of_share/side-a").expect(rt, "a side");
    remove(rt, FOLDER);
    side
}

// A node without the word has the share 1, and is kept as nodes were before there were shares: of the version and the length of
// such a state. Of the share 32 the state has the share, no others of a round, and no ask that waits, from place 74 on.
#[test]
fn a_folder_keeps_its_share(rt: HostRuntime) {
    let without = side_of_share(&rt, None);
    let of_1 = side_of_share(&rt, Some("1"));
    let of_32 = side_of_share(&rt, Some("32"));
    assert!(rt; of_1.as_slice() == without.as_slice() && of_1.len() == 134);
    assert!(rt; of_1.get(9..14) == Some([2, 0, 0, 0, 119].as_slice()));
    assert!(rt; of_32.len() == 136);
    assert!(rt; of_32.get(9..14) == Some([32, 0, 0, 0, 121].as_slice()));
    assert!(rt; of_32.get(88..91) == Some([32, 0, 0].as_slice()));
}
