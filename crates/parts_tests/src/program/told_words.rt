//! What is told of words that are no command, of beginnings that no node has, and of those that an operator may not want.

use crate::program::words::{format_of, with};
use cc_command_line::{AnswerForm, AskOrder, AskWords, CommandFault, FormatWords, WordFault};
use cc_node::OpeningRule;
use cc_subcommands::{BadOpening, FormatOrder, Warning};
use std::process::Abort;

// A command with that value and that text is none, and just this is told of it.
fn check_told<'a, R: Abort + AllocGlobal>(
    rt: &R,
    command: &'a str,
    value: Option<&'a str>,
    text: Option<&'a str>,
    wanted: &str,
) {
    let words = AskWords {
        address: "127.0.0.1:7001",
        session: "7",
        command,
        value,
        text,
        request: None,
        timeout: None,
        form: AnswerForm::Plain,
        waits: false,
        snapshot: false,
        status: None,
    };
    let fault = CommandFault::of(rt.alloc(), &words).expect(rt, "a fault");
    let told = format!(in rt.alloc(); "{fault}").expect(rt, "a text");
    assert!(rt; told.as_str() == wanted, "{wanted}");
    assert!(rt;
        AskOrder::parse(&words) == Err(WordFault::Command),
        "{wanted}"
    );
}

const LONGER_TEXT: &str = "0123456789abcdef0123456789abcdef0123456789abcdef0123456789abcdef.";

const LONGER: &str = "store takes 1 to 64 bytes; this has 65";

const EMPTY: &str = "store takes 1 to 64 bytes; this has 0";

const UNSEEN: &str = "store takes a word of visible ASCII characters; others go behind --text";

const BOTH: &str = "store takes a word or --text, not both";

#[test]
fn a_bad_text_is_told_as_what_it_is(rt: HostRuntime) {
    check_told(&rt, "store", None, None, "store takes a value");
    check_told(&rt, "store", Some(LONGER_TEXT), None, LONGER);
    check_told(&rt, "store", None, Some(LONGER_TEXT), LONGER);
    check_told(&rt, "store", None, Some(""), EMPTY);
    check_told(&rt, "store", Some("two words"), None, UNSEEN);
    check_told(&rt, "store", Some("a"), Some("b"), BOTH);
}

const U64S: &str = "max takes a number from 0 to 18446744073709551615";

const U32S: &str = "add takes a number from 0 to 4294967295";

// Commands that are none, and what is told of each by itself.
const NO_COMMANDS: [(&str, &str); 4] = [
    ("red-max", "red-max is no command; did you mean readmax?"),
    (
        "sett",
        "sett is no command: store WORD, collect, snapshot, max N, readmax, flag, readflag, add N, readset",
    ),
    ("Flag", "Flag is no command; did you mean flag?"),
    (
        "",
        " is no command: store WORD, collect, snapshot, max N, readmax, flag, readflag, add N, readset",
    ),
];

#[test]
fn a_bad_value_or_command_is_told_as_what_it_is(rt: HostRuntime) {
    check_told(&rt, "max", None, None, "max takes a value");
    check_told(&rt, "max", Some("-1"), None, U64S);
    check_told(&rt, "add", Some("4294967296"), None, U32S);
    check_told(
        &rt,
        "add",
        None,
        Some("5"),
        "add takes no --text, as store does",
    );
    check_told(&rt, "collect", Some("a"), None, "collect takes no value");
    check_told(&rt, "readmax", Some("9"), None, "readmax takes no value");
    check_told(&rt, "snapshot", Some("a"), None, "snapshot takes no value");
    check_told(
        &rt,
        "stor",
        Some("a"),
        None,
        "stor is no command; did you mean store?",
    );
    for &(command, wanted) in &NO_COMMANDS {
        check_told(&rt, command, None, None, wanted);
    }
}

// A place, a text for it, the rule that a beginning with that text breaks first, and what is told of it.
const BAD_BEGINNINGS: [(WordFault, &str, OpeningRule, &str); 8] = [
    (
        WordFault::Beta,
        "5/4",
        OpeningRule::Beta,
        "--beta isn't a fraction above 0 and at most 1",
    ),
    (
        WordFault::Gamma,
        "0/4",
        OpeningRule::Gamma,
        "--gamma isn't a fraction above 0 and at most 1",
    ),
    (
        WordFault::Initial,
        "1,3,2",
        OpeningRule::Initial,
        "--initial doesn't ascend: each number is greater than the one before it",
    ),
    (
        WordFault::Contacts,
        "4,4",
        OpeningRule::Contacts,
        "--contacts doesn't ascend: each number is greater than the one before it",
    ),
    (
        WordFault::Id,
        "4",
        OpeningRule::Member,
        "the node isn't in its own --initial: a member at the start is, and one that enters later has none",
    ),
    (
        WordFault::Contacts,
        "1",
        OpeningRule::OwnContact,
        "the node is among its own --contacts: they are others",
    ),
    (
        WordFault::Contacts,
        "0",
        OpeningRule::Zero,
        "an id is 0: they begin at 1",
    ),
    (
        WordFault::Share,
        "33",
        OpeningRule::Share,
        "--share isn't a number from 1 to 32",
    ),
];

#[test]
fn a_bad_beginning_is_told_by_its_rule(rt: HostRuntime) {
    let member = with(&format_of("1"), WordFault::Initial, "1,2,3");
    for &(place, text, rule, wanted) in &BAD_BEGINNINGS {
        let words = with(&member, place, text);
        let order = FormatOrder::parse(rt.alloc(), &words).expect(&rt, "an order");
        let broken = order.opening().broken_rule();
        drop(order);
        assert!(rt; broken == Some(rule), "{text}");
        let told = format!(in rt.alloc(); "{}", BadOpening(rule)).expect(&rt, "a text");
        assert!(rt; told.as_str() == wanted, "{text}");
    }
}

const NOTHING: [Option<Warning>; 3] = [None, None, None];

// Just this is told of the members at the start, the contacts and β of a node.
fn check_warned<'a, R: Abort + AllocGlobal>(
    rt: &R,
    initial: Option<&'a str>,
    contacts: Option<&'a str>,
    beta: Option<&'a str>,
    wanted: [Option<Warning>; 3],
) {
    let words = FormatWords {
        initial,
        contacts,
        beta,
        ..format_of("1")
    };
    let order = FormatOrder::parse(rt.alloc(), &words).expect(rt, "an order");
    let warnings = order.warnings();
    drop(order);
    assert!(rt; warnings == wanted);
}

// A node that has other members at the start, and one that has none.
#[test]
fn an_operator_is_warned(rt: HostRuntime) {
    let all = [None, Some(Warning::All), None];
    let half = [Some(Warning::Half), None, None];
    let alone = [None, None, Some(Warning::Alone)];
    check_warned(&rt, Some("1,2,3"), None, None, all);
    check_warned(&rt, Some("1,2,3"), None, Some("2/3"), NOTHING);
    check_warned(&rt, Some("1,2,3,4,5"), None, None, NOTHING);
    check_warned(&rt, Some("1,2,3"), None, Some("1/2"), half);
    check_warned(&rt, Some("1"), None, None, NOTHING);
    check_warned(&rt, None, Some("1"), None, NOTHING);
    check_warned(&rt, None, None, None, alone);
}
