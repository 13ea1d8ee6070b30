//! The commands that words may ask for.

ghost use Rattle.std.specs.Prelude.{◌≡◌, ℕ, List, IfOk, IfErr};
ghost use Rattle.command_line.specs.Commands as spec;
ghost use Rattle.command_line.specs.Commands.{GoesWrong, IsCommand};
ghost use Rattle.command_line.specs.Values.{command_of};

use crate::reader::{Reader, lone_command};
use crate::words::Words;
use plane_schedule::{FixedPolicy, Listing};

/// How the columns of a query are read: by a policy, or as a list of names says.
#[derive(Clone, Copy, Debug, PartialEq, Eq)]
pub enum ReadOrder<'a> {
    /// By the policy that the word behind `--policy` names.
    By(FixedPolicy),
    /// The names that the word behind `--reads` lists.
    Reads(&'a str),
}

/// The options of a command.
#[derive(Clone, Copy, Debug, PartialEq, Eq)]
pub struct Options<'a> {
    /// How wide an interval may be that counts as narrow: 0 where it is not given.
    pub width: u64,
    /// The most rounds, if they are limited.
    pub rounds: Option<u32>,
    /// Which column is read next: the widest where it is not given.
    pub order: ReadOrder<'a>,
    /// Which rows in an order are listed: the certain ones alone where it is not given.
    pub listing: Listing,
    /// Whether the bounds of aggregates over clipped columns are shown.
    pub clip: bool,
    /// Whether the exact extremes of averages are shown.
    pub exact: bool,
    /// Whether rows in an order are narrow only where the keys of the first are too.
    pub keys: bool,
}

/// `ask`: a query over a CSV.
#[derive(Clone, Copy, Debug, PartialEq, Eq)]
pub struct Ask<'a> {
    /// The path of the CSV.
    pub csv: &'a str,
    /// The text of its schema.
    pub schema: &'a str,
    /// The text of the query.
    pub sql: &'a str,
    /// How it is answered.
    pub options: Options<'a>,
}

/// `query`: a query over a plane file.
#[derive(Clone, Copy, Debug, PartialEq, Eq)]
pub struct Query<'a> {
    /// The path of the plane file.
    pub file: &'a str,
    /// The text of the query.
    pub sql: &'a str,
    /// How it is answered.
    pub options: Options<'a>,
}

/// `session`: the queries of a script over a plane file.
#[derive(Clone, Copy, Debug, PartialEq, Eq)]
pub struct Session<'a> {
    /// The path of the plane file.
    pub file: &'a str,
    /// The path of the script.
    pub script: &'a str,
    /// How they are answered; their order is no list of names.
    pub options: Options<'a>,
}

/// `load`: a CSV is written as a plane file.
#[derive(Clone, Copy, Debug, PartialEq, Eq)]
pub struct Load<'a> {
    /// The path of the CSV.
    pub csv: &'a str,
    /// The path of the plane file.
    pub file: &'a str,
    /// The text of the CSV's schema.
    pub schema: &'a str,
}

/// `info`: what is declared in a plane file.
#[derive(Clone, Copy, Debug, PartialEq, Eq)]
pub struct Info<'a> {
    /// The path of the plane file.
    pub file: &'a str,
}

/// `upgrade`: a plane file is written anew, in the newest version.
#[derive(Clone, Copy, Debug, PartialEq, Eq)]
pub struct Upgrade<'a> {
    /// The path of the plane file that is read.
    pub older: &'a str,
    /// The path of the one that is written.
    pub newer: &'a str,
}

/// `demo`: a query over a generated table.
#[derive(Clone, Copy, Debug, PartialEq, Eq)]
pub struct Demo<'a> {
    /// The seed of the table.
    pub seed: u64,
    /// The number of its rows.
    pub rows: u64,
    /// The text of the query.
    pub sql: &'a str,
    /// How it is answered.
    pub options: Options<'a>,
}

/// `combine`: the reports of the parts of a table become one.
#[derive(Clone, Copy, Debug, PartialEq, Eq)]
pub struct Combine<'a> {
    /// How many parts there are.
    pub parts: u32,
    /// The path of their reports.
    pub reports: &'a str,
    /// How wide an interval may be that counts as narrow: 0 where it is not given.
    pub width: u64,
    /// The most rounds, if they are limited.
    pub rounds: Option<u32>,
    /// Whether rows in an order are narrow only where the keys of the first are too.
    pub keys: bool,
}

/// What words ask for. Its texts are those of the words.
#[derive(Clone, Copy, Debug, PartialEq, Eq)]
pub enum Command<'a> {
    /// A query over a CSV.
    Ask(Ask<'a>),
    /// A query over a plane file.
    Query(Query<'a>),
    /// The queries of a script over a plane file.
    Session(Session<'a>),
    /// A CSV is written as a plane file.
    Load(Load<'a>),
    /// What is declared in a plane file.
    Info(Info<'a>),
    /// A plane file is written anew.
    Upgrade(Upgrade<'a>),
    /// A query over a generated table.
    Demo(Demo<'a>),
    /// The reports of the parts of a table become one.
    Combine(Combine<'a>),
    /// What the commands and their options are.
    Help,
    /// Which version of the program this is.
    Version,
}

/// Words are no command.
#[derive(Clone, Copy, Debug, PartialEq, Eq)]
pub struct Usage {
    /// The place of the first word with which no command goes on, or of the word that is missing. Words count from 1.
    pub place: usize,
}

impl<'a> Command<'a> {
    /// The command of the words; where they are none, the place where they go wrong. It takes no memory.
    pub fn parse(words: &'a Words) -> Result<Command<'a>, Usage>
        ensures ok { IfOk result (λ command. IsCommand words.now (command_of command)) }
        ensures usage { IfErr result (λ usage. GoesWrong words.now usage.place) }
    {
        let mut reader = Reader::new(words);
        match reader.word()? {
            "ask" => Ok(Command::Ask(reader.ask()?)),
            "query" => Ok(Command::Query(reader.query()?)),
            "session" => Ok(Command::Session(reader.session()?)),
            "load" => Ok(Command::Load(reader.load()?)),
            "info" => Ok(Command::Info(reader.info()?)),
            "upgrade" => Ok(Command::Upgrade(reader.upgrade()?)),
            "demo" => Ok(Command::Demo(reader.demo()?)),
            "combine" => Ok(Command::Combine(reader.combine()?)),
            other => match lone_command(other) {
                Some(command) => {
                    reader.end()?;
                    Ok(command)
                }
                None => Err(Usage { place: 1 }),
            },
        }
    }
}

/// A law: words ask for one command at most, and go wrong at one place at most.
pub fn one_command()
    ensures commands { (words : List (List ℕ)) (c d : spec.Command) → IsCommand words c → IsCommand words d → c ≡ d }
    ensures places { (words : List (List ℕ)) (p q : ℕ) → GoesWrong words p → GoesWrong words q → p ≡ q }
{}
