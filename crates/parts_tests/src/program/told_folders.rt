//! What is told of a folder beside what is printed: of its node, why it can't be opened, and of files that were lost.

use crate::program::folders::{check_format, dumped, made, member, remove};
use crate::program::words::with;
use cc_command_line::WordFault;
use cc_site::{FileSite, NoOutlet};
use cc_subcommands::{DumpScope, Lost, Trouble, Wrong, node_in_folder};
use cc_views::NodeId;
use std::fs;
use std::fs::{File, Files};
use std::process::Abort;

const MEMBER_LINES: &str =
    "A armed 1\nB closed\nopened A records 0 events 0\nnode 1\nbeta 2/3\ngamma 4/5\nshare 32\nstanding joined\nmembers 1,2\npresent 1,2\nleft none\nview []\nround none\nlink 1 owes 0 of 0 acknowledged 0 heard 0\nlink 2 owes 0 of 0 acknowledged 0 heard 0\nlink 3 owes 0 of 0 acknowledged 0 heard 0\nsessions 0 of 256\nposts made 0 kept 0 of 512\nanswers kept 0 of 256\n";

// What such a file in a folder is told as behind its node.
const IDENTITIES: [(&str, &str); 4] = [
    ("cluster blue\nbirth 7\n", "cluster blue\nbirth 7\n"),
    (
        "cluster \nbirth 7\n",
        "fault identity line 1 isn't a cluster's name, such as cluster blue\n",
    ),
    (
        "cluster blue\nbirth x\n",
        "fault identity line 2 isn't a number, such as birth 42\n",
    ),
    (
        "cluster blue\nbirth 7\nmore",
        "fault identity line 3 isn't the end\n",
    ),
];

#[test]
fn a_folder_tells_of_its_node_and_its_cluster(rt: HostRuntime) {
    const FOLDER: &str = "named_folder";
    const IDENTITY: &str = "named_folder/identity";
    made(&rt, FOLDER);
    check_format(&rt, FOLDER, &member(), 0, "formatted 1\n");
    let (_, told) = dumped(&rt, FOLDER, DumpScope::Node);
    assert!(rt; told.as_str() == MEMBER_LINES, "{told}");
    assert!(rt; node_in_folder(&rt, rt.alloc(), FOLDER).ok() == NodeId::new(1));
    made(&rt, FOLDER);
    let named = with(&member(), WordFault::Cluster, "blue");
    check_format(&rt, FOLDER, &named, 0, "formatted 1\n");
    let text = fs::read_to_string(&rt, IDENTITY).expect(&rt, "a text");
    assert!(rt; text.as_str() == "cluster blue\nbirth 42\n");
    for &(text, wanted) in &IDENTITIES {
        fs::write(&rt, IDENTITY, text).expect(&rt, "the file is written");
        let (_, told) = dumped(&rt, FOLDER, DumpScope::Node);
        assert!(rt; told.as_str().ends_with(wanted), "{wanted}");
    }
    let (_, told) = dumped(&rt, FOLDER, DumpScope::Sides);
    assert!(rt; !told.as_str().contains("identity"));
    remove(&rt, FOLDER);
}

// What is wrong with a folder, and where.
fn check_trouble<R: Abort + AllocGlobal + Files<File = File>>(
    rt: &R,
    folder: &str,
    path: &str,
    wrong: Wrong,
) {
    let found = Trouble::at(rt, rt.alloc(), folder).expect(rt, "room");
    let trouble = found.expect(rt, "something is wrong");
    assert!(rt;
        trouble.path.as_str() == path && trouble.wrong == wrong,
        "{path}"
    );
}

// A folder that isn't there, is held, has a file in its place, and has a folder in the place of side B.
#[test]
fn a_closed_folder_tells_why(rt: HostRuntime) {
    const FOLDER: &str = "troubled_folder";
    const LOCK: &str = "troubled_folder/lock";
    const SIDE: &str = "troubled_folder/side-b";
    let _ = fs::remove_dir_all(&rt, FOLDER);
    check_trouble(&rt, FOLDER, FOLDER, Wrong::NoFolder);
    made(&rt, FOLDER);
    let holder = FileSite::open(&rt, rt.alloc(), FOLDER, NoOutlet).expect(&rt, "a site");
    check_trouble(&rt, FOLDER, LOCK, Wrong::Held);
    drop(holder);
    let free = Trouble::at(&rt, rt.alloc(), FOLDER).expect(&rt, "room");
    assert!(rt; free.is_none());
    check_trouble(&rt, LOCK, LOCK, Wrong::NotAFolder);
    fs::remove_file(&rt, SIDE).expect(&rt, "the file is removed");
    made(&rt, SIDE);
    check_trouble(&rt, FOLDER, SIDE, Wrong::NotAFile);
    remove(&rt, FOLDER);
}

// Files that are removed one after the other, and what is lost then.
const REMOVED: [(&str, Option<Lost>); 3] = [
    ("lost_folder/side-a", Some(Lost::SideA)),
    ("lost_folder/side-b", Some(Lost::Both)),
    ("lost_folder/lock", None),
];

#[test]
fn a_lost_file_is_told(rt: HostRuntime) {
    const FOLDER: &str = "lost_folder";
    made(&rt, FOLDER);
    check_format(&rt, FOLDER, &member(), 0, "formatted 1\n");
    assert!(rt;
        Lost::at(&rt, rt.alloc(), FOLDER)
            .expect(&rt, "room")
            .is_none()
    );
    for &(path, wanted) in &REMOVED {
        fs::remove_file(&rt, path).expect(&rt, "the file is removed");
        assert!(rt; Lost::at(&rt, rt.alloc(), FOLDER).expect(&rt, "room") == wanted);
    }
    remove(&rt, FOLDER);
}
