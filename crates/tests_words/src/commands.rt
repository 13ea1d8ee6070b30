//! Lists of words, and the place where they go wrong or the command that they ask for.

use command_line::{
    Ask, Combine, Command, Demo, Info, Load, Options, Query, ReadOrder, Session, Upgrade, Usage,
    Words,
};
use plane_schedule::{FixedPolicy, Listing};
use std::alloc::{AllocError, Global};
use std::test::Fail;

// Words parted by blanks.
fn words_of(alloc: Global, line: &str) -> Result<Words, AllocError> {
    let mut words = Words::new(alloc);
    for word in line.split_whitespace() {
        words.push(word)?;
    }
    Ok(words)
}

// Words that are no command, and the place where they go wrong.
const WRONG: [(&str, usize); 58] = [
    ("", 1),
    ("sum p.csv s q", 1),
    ("Ask p.csv s q", 1),
    ("--list ask p.csv s q", 1),
    ("ask", 2),
    ("ask p.csv s", 4),
    ("ask p.csv s q more", 5),
    ("ask p.csv s q --list --list", 6),
    ("ask p.csv s q --list --part", 6),
    ("ask p.csv s q --part --keys --part", 7),
    ("ask p.csv s q --width", 6),
    ("ask p.csv s q --width x", 6),
    ("ask p.csv s q --width -1", 6),
    ("ask p.csv s q --width +1", 6),
    ("ask p.csv s q --width 9223372036854775808", 6),
    ("ask p.csv s q --rounds 4294967296", 6),
    ("ask p.csv s q --width 1 --width 2", 7),
    ("ask p.csv s q --clip --list --clip", 7),
    ("ask p.csv s q --exact", 5),
    ("ask p.csv s q --policy first", 6),
    ("ask p.csv s q --policy order --reads price", 7),
    ("ask p.csv s q --reads price --policy order", 7),
    ("demo x 5 q", 2),
    ("demo 1 18446744073709551616 q", 3),
    ("demo 1 5", 4),
    ("demo 1 5 q --list p", 6),
    ("demo 1 5 q --exact-avg 1", 6),
    ("query p.daq", 3),
    ("query p.daq q more", 4),
    ("query p.daq q --rounds 1 --rounds 2", 6),
    ("query p.daq q --exact-avg --exact-avg", 5),
    ("session p.daq", 3),
    ("session p.daq p.sql more", 4),
    ("session p.daq p.sql --reads price", 4),
    ("session p.daq p.sql --reads", 4),
    ("session p.daq p.sql --policy order --reads price", 6),
    ("session p.daq p.sql --width 1 --policy", 7),
    ("load p.csv p.daq", 4),
    ("load p.csv p.daq s --list", 5),
    ("info", 2),
    ("info p.daq --list", 3),
    ("upgrade p.daq q.daq --clip", 4),
    ("upgrade p.daq", 3),
    ("upgrade p.daq q.daq r.daq", 4),
    ("combine", 2),
    ("combine 0 r.txt", 2),
    ("combine 65537 r.txt", 2),
    ("combine 2", 3),
    ("combine 2 r.txt more", 4),
    ("combine 2 r.txt --list", 4),
    ("combine 2 r.txt --part", 4),
    ("combine 2 r.txt --width 1 --width 2", 6),
    ("combine 2 r.txt --rounds 4294967296", 5),
    ("help query", 2),
    ("--help --help", 2),
    ("-V 1", 2),
    ("-H", 1),
    ("--list --help", 1),
];

#[test]
fn words_that_are_no_command_go_wrong_at_a_word(rt: HostRuntime) -> Result<(), Fail> {
    for (line, place) in WRONG {
        let words = words_of(rt.alloc(), line)?;
        assert_eq!(rt; Command::parse(&words), Err(Usage { place }));
    }
    Ok(())
}

#[test]
fn a_query_over_a_csv(rt: HostRuntime) -> Result<(), Fail> {
    let words = words_of(
        rt.alloc(),
        "ask --list s q --rounds 007 --reads a,b --clip --width 9223372036854775807",
    )?;
    let options = Options {
        width: 9_223_372_036_854_775_807,
        rounds: Some(7),
        order: ReadOrder::Reads("a,b"),
        listing: Listing::Certain,
        clip: true,
        exact: false,
        keys: false,
    };
    let ask = Ask {
        csv: "--list",
        schema: "s",
        sql: "q",
        options,
    };
    assert_eq!(rt; Command::parse(&words), Ok(Command::Ask(ask)));
    Ok(())
}

#[test]
fn a_query_over_a_generated_table(rt: HostRuntime) -> Result<(), Fail> {
    let words = words_of(
        rt.alloc(),
        "demo 18446744073709551615 0 q --exact-avg --keys --list --policy filter",
    )?;
    let options = Options {
        width: 0,
        rounds: None,
        order: ReadOrder::By(FixedPolicy::FilterFirst),
        listing: Listing::All,
        clip: false,
        exact: true,
        keys: true,
    };
    let demo = Demo {
        seed: 18_446_744_073_709_551_615,
        rows: 0,
        sql: "q",
        options,
    };
    assert_eq!(rt; Command::parse(&words), Ok(Command::Demo(demo)));
    Ok(())
}

#[test]
fn questions_to_plane_files(rt: HostRuntime) -> Result<(), Fail> {
    let options = Options {
        width: 0,
        rounds: Some(3),
        order: ReadOrder::By(FixedPolicy::Widest),
        listing: Listing::Few,
        clip: true,
        exact: true,
        keys: false,
    };
    let commands = [
        (
            "query p.daq q --exact-avg --part --rounds 3 --clip",
            Command::Query(Query {
                file: "p.daq",
                sql: "q",
                options,
            }),
        ),
        (
            "session p.daq --reads --rounds 3 --exact-avg --policy widest --clip --part",
            Command::Session(Session {
                file: "p.daq",
                script: "--reads",
                options,
            }),
        ),
    ];
    for (line, command) in commands {
        let words = words_of(rt.alloc(), line)?;
        assert_eq!(rt; Command::parse(&words), Ok(command));
    }
    Ok(())
}

#[test]
fn commands_over_whole_plane_files(rt: HostRuntime) -> Result<(), Fail> {
    let commands = [
        (
            "load p.csv --list s",
            Command::Load(Load {
                csv: "p.csv",
                file: "--list",
                schema: "s",
            }),
        ),
        ("info p.daq", Command::Info(Info { file: "p.daq" })),
        (
            "upgrade p.daq q.daq",
            Command::Upgrade(Upgrade {
                older: "p.daq",
                newer: "q.daq",
            }),
        ),
    ];
    for (line, command) in commands {
        let words = words_of(rt.alloc(), line)?;
        assert_eq!(rt; Command::parse(&words), Ok(command));
    }
    Ok(())
}

#[test]
fn reports_of_parts(rt: HostRuntime) -> Result<(), Fail> {
    let commands = [
        ("combine 1 --width", 1, "--width", 0, None, false),
        (
            "combine 065536 r.txt --keys --width 7",
            65_536,
            "r.txt",
            7,
            None,
            true,
        ),
        (
            "combine 12 r.txt --rounds 0 --width 9223372036854775807",
            12,
            "r.txt",
            9_223_372_036_854_775_807,
            Some(0),
            false,
        ),
    ];
    for (line, parts, reports, width, rounds, keys) in commands {
        let words = words_of(rt.alloc(), line)?;
        let combine = Combine {
            parts,
            reports,
            width,
            rounds,
            keys,
        };
        assert_eq!(rt; Command::parse(&words), Ok(Command::Combine(combine)));
    }
    Ok(())
}

#[test]
fn the_help_and_the_version(rt: HostRuntime) -> Result<(), Fail> {
    for (line, command) in [
        ("help", Command::Help),
        ("--help", Command::Help),
        ("-h", Command::Help),
        ("--version", Command::Version),
        ("-V", Command::Version),
    ] {
        let words = words_of(rt.alloc(), line)?;
        assert_eq!(rt; Command::parse(&words), Ok(command));
    }
    Ok(())
}
