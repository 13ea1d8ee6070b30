//! Reads the words of a command one by one.

ghost use Rattle.std.specs.Prelude.{◌≡◌, ◌≢◌, ◌==◌, ◌+◌, ◌^◌, ◌<◌};
ghost use Rattle.std.specs.Prelude.{◌≤◌, [], true, length, Ok, Err, IfOk, IfErr, OnOk, option_map};
ghost use Rattle.std.specs.Char.{is_ascii_digit};
ghost use Rattle.std.specs.List.{list_all};
ghost use Rattle.std.specs.Option.{SomeIff};
ghost use Rattle.std.specs.Str.Parse.{IsNumeral, digits_value};
ghost use Rattle.command_line.specs.Commands.{ask, combine, demo, info, load, query, session, upgrade};
ghost use Rattle.command_line.specs.Commands.{no_limits, nothing_given, options_given};
ghost use Rattle.command_line.specs.Reading.{Adds, Fails, HasMore, Lacks, LeadsTo, Names, Says, StopsAt, Takes};
ghost use Rattle.command_line.specs.Reading.{AddsLimit, AllLimit, LimitFails, NamesLimit};
ghost use Rattle.command_line.specs.Reading.{after_ask, after_demo, after_info, after_load, after_query, after_session};
ghost use Rattle.command_line.specs.Reading.{after_combine, after_upgrade, answers, flag_of, is_free, lone_command, may_limit};
ghost use Rattle.command_line.specs.Reading.{number, parts, parts_of, policy};
ghost use Rattle.command_line.specs.Values.{ask_of, combine_of, command_of, demo_of, given_of, info_of, limits_of, load_of};
ghost use Rattle.command_line.specs.Values.{options_of, query_of, session_of, upgrade_of};

use crate::command::{
    Ask, Combine, Command, Demo, Info, Load, Options, Query, ReadOrder, Session, Upgrade, Usage,
};
use crate::words::Words;
use plane_schedule::{FixedPolicy, Listing};
use std::marker::Model;

// The greatest width.
const MOST_WIDTH: u64 = 9_223_372_036_854_775_807;

// The most parts.
const MOST_PARTS: u64 = 65_536;

// The options by their names.
#[derive(Clone, Copy)]
pub(crate) enum Flag {
    Width,
    Rounds,
    Policy,
    Reads,
    List,
    Part,
    Clip,
    Exact,
    Keys,
}

// What the options so far give.
#[derive(Clone, Copy)]
pub(crate) struct Given<'a> {
    width: Option<u64>,
    rounds: Option<u32>,
    order: Option<ReadOrder<'a>>,
    listing: Option<Listing>,
    clip: bool,
    exact: bool,
    keys: bool,
}

// What the limits so far give.
#[derive(Clone, Copy)]
pub(crate) struct Limits {
    width: Option<u64>,
    rounds: Option<u32>,
    keys: bool,
}

// The words from a place on.
#[derive(Drop)]
pub(crate) struct Reader<'a> {
    words: &'a Words,
    at: usize,
}

impl<'a> Model for Reader<'a> {
    ghost use Rattle.std.specs.Prelude.{◌≤◌, ◌<◌, ◌^◌, length, drop};
    ghost use Rattle.command_line.specs.Reading.{Left};

    ghost Value = { Left };

    ghost view = { λ r. record { at = r.at; words = drop r.at r.words.now } };

    ghost invariant = { λ r. (r.at ≤ length r.words.now) × (r.at < 2 ^ 63) };
}

fn is_digits(word: &str) -> bool
    ensures { result ≡ list_all is_ascii_digit word.now }
{
    word.as_bytes().iter().all(|byte| byte.is_ascii_digit())
}

// The number that the word writes in digits, if it is one of 64 bits.
fn number_of(word: &str) -> Option<u64>
    ensures { SomeIff result (IsNumeral 10 word.now × (digits_value 10 word.now < 2 ^ 64)) (digits_value 10 word.now) }
{
    if is_digits(word) {
        word.parse::<u64>().ok()
    } else {
        None
    }
}

// The number of parts that the word writes, of which there is one at least.
#[tactic(auto, using(crate::proofs::Numbers::parts_there, crate::proofs::Numbers::parts_missing))]
fn parts_of(word: &str) -> Option<u32>
    ensures { result ≡ parts_of word.now }
{
    match number_of(word) {
        Some(number) => {
            if number == 0 || number > MOST_PARTS {
                None
            } else {
                Some(number as u32)
            }
        }
        None => None,
    }
}

// The option that the word names.
#[tactic(auto, unfolding(crate::specs::Reading::flag_of))]
fn flag_of(word: &str) -> Option<Flag>
    ensures { result ≡ flag_of word.now }
{
    match word {
        "--width" => Some(Flag::Width),
        "--rounds" => Some(Flag::Rounds),
        "--policy" => Some(Flag::Policy),
        "--reads" => Some(Flag::Reads),
        "--list" => Some(Flag::List),
        "--part" => Some(Flag::Part),
        "--clip" => Some(Flag::Clip),
        "--exact-avg" => Some(Flag::Exact),
        "--keys" => Some(Flag::Keys),
        _ => None,
    }
}

// The command that the word is by itself.
#[tactic(auto, unfolding(crate::specs::Reading::lone_command))]
pub(crate) fn lone_command<'a>(word: &str) -> Option<Command<'a>>
    ensures { option_map command_of result ≡ lone_command word.now }
{
    match word {
        "help" | "--help" | "-h" => Some(Command::Help),
        "--version" | "-V" => Some(Command::Version),
        _ => None,
    }
}

impl<'a> Given<'a> {
    fn nothing() -> Given<'a>
        ensures { given_of result ≡ nothing_given }
    {
        Given {
            width: None,
            rounds: None,
            order: None,
            listing: None,
            clip: false,
            exact: false,
            keys: false,
        }
    }

    // Whether the option may be given, and what it gives was not given yet.
    fn is_free(&self, flag: Flag, by_name: bool) -> bool
        ensures { result ≡ is_free by_name flag (given_of self.now) }
    {
        match flag {
            Flag::Width => self.width.is_none(),
            Flag::Rounds => self.rounds.is_none(),
            Flag::Policy => self.order.is_none(),
            Flag::Reads => by_name && self.order.is_none(),
            Flag::List | Flag::Part => self.listing.is_none(),
            Flag::Clip => !self.clip,
            Flag::Exact => !self.exact,
            Flag::Keys => !self.keys,
        }
    }

    // The options, where these are all.
    fn options(self) -> Options<'a>
        ensures { options_of result ≡ options_given (given_of self.entry) }
    {
        Options {
            width: self.width.unwrap_or(0),
            rounds: self.rounds,
            order: self.order.unwrap_or(ReadOrder::By(FixedPolicy::Widest)),
            listing: self.listing.unwrap_or(Listing::Certain),
            clip: self.clip,
            exact: self.exact,
            keys: self.keys,
        }
    }
}

impl Limits {
    // Whether the option is a limit, which was not given yet.
    fn may_take(&self, flag: Flag) -> bool
        ensures { result ≡ may_limit flag (limits_of self.now) }
    {
        match flag {
            Flag::Width => self.width.is_none(),
            Flag::Rounds => self.rounds.is_none(),
            Flag::Keys => !self.keys,
            Flag::Policy | Flag::Reads | Flag::List | Flag::Part | Flag::Clip | Flag::Exact =>
                false,
        }
    }
}

impl<'a> Reader<'a> {
    pub(crate) fn new(words: &'a Words) -> Reader<'a>
        ensures at { result.at ≡ 0 }
        ensures words { result.words ≡ words.now }
    {
        Reader { words, at: 0 }
    }

    // The next word may not come, or is missing.
    fn refusal(&self) -> Usage
        ensures { result.place ≡ self.now.at + 1 }
    {
        Usage { place: self.at + 1 }
    }

    // Whether no word is left.
    fn is_done(&self) -> bool
        ensures { result ≡ (length self.now.words == 0) }
    {
        self.at == self.words.len()
    }

    // Any word.
    pub(crate) fn word(&mut self) -> Result<&'a str, Usage>
        ensures ok { IfOk result (λ text. Takes self.old text.now self.new) }
        ensures err { IfErr result (λ usage. Lacks self.old usage.place) }
    {
        if self.at == self.words.len() {
            return Err(self.refusal());
        }
        let word = self.words.word(self.at);
        self.at += 1;
        Ok(word)
    }

    // No word.
    pub(crate) fn end(&self) -> Result<(), Usage>
        ensures ok { OnOk result (self.now.words ≡ []) }
        ensures err { IfErr result (λ usage. HasMore self.now usage.place) }
    {
        if self.is_done() {
            Ok(())
        } else {
            Err(self.refusal())
        }
    }

    // A number of at most the limit.
    fn number(&mut self, limit: u64) -> Result<u64, Usage>
        ensures ok { IfOk result (λ n. LeadsTo (number limit) self.old n self.new) }
        ensures small { IfOk result (λ n. n ≤ limit) }
        ensures shorter { OnOk result (length self.new.words < length self.old.words) }
        ensures err { IfErr result (λ usage. StopsAt (number limit) self.old usage.place) }
    {
        let refusal = self.refusal();
        match number_of(self.word()?) {
            Some(number) if number <= limit => Ok(number),
            _ => Err(refusal),
        }
    }

    // A number of parts.
    fn parts(&mut self) -> Result<u32, Usage>
        ensures ok { IfOk result (λ n. LeadsTo parts self.old n self.new) }
        ensures err { IfErr result (λ usage. StopsAt parts self.old usage.place) }
    {
        let refusal = self.refusal();
        match parts_of(self.word()?) {
            Some(parts) => Ok(parts),
            None => Err(refusal),
        }
    }

    // The name of a policy.
    fn policy(&mut self) -> Result<FixedPolicy, Usage>
        ensures ok { IfOk result (λ named. LeadsTo policy self.old named self.new) }
        ensures shorter { OnOk result (length self.new.words < length self.old.words) }
        ensures err { IfErr result (λ usage. StopsAt policy self.old usage.place) }
    {
        let refusal = self.refusal();
        match FixedPolicy::named(self.word()?) {
            Some(policy) => Ok(policy),
            None => Err(refusal),
        }
    }

    // The name of an option that may be given and was not yet.
    fn flag(&mut self, given: &Given<'a>, by_name: bool) -> Result<Flag, Usage>
        requires { self.old.words ≢ [] }
        ensures ok { IfOk result (λ flag. Names by_name (given_of given.now) self.old flag self.new) }
        ensures shorter { OnOk result (length self.new.words < length self.old.words) }
        ensures err { IfErr result (λ usage. Fails by_name (given_of given.now) self.old usage.place) }
    {
        let refusal = self.refusal();
        match flag_of(self.word()?) {
            Some(flag) if given.is_free(flag, by_name) => Ok(flag),
            _ => Err(refusal),
        }
    }

    // An option that may be given and was not yet.
    fn option(&mut self, given: &mut Given<'a>, by_name: bool) -> Result<(), Usage>
        requires { self.old.words ≢ [] }
        ensures ok { OnOk result (Adds by_name (given_of given.old) self.old (given_of given.new) self.new) }
        ensures shorter { OnOk result (length self.new.words < length self.old.words) }
        ensures err { IfErr result (λ usage. Fails by_name (given_of given.old) self.old usage.place) }
    {
        match self.flag(given, by_name)? {
            Flag::Width => given.width = Some(self.number(MOST_WIDTH)?),
            Flag::Rounds => given.rounds = Some(self.number(u32::MAX as u64)? as u32),
            Flag::Policy => given.order = Some(ReadOrder::By(self.policy()?)),
            Flag::Reads => given.order = Some(ReadOrder::Reads(self.word()?)),
            Flag::List => given.listing = Some(Listing::All),
            Flag::Part => given.listing = Some(Listing::Few),
            Flag::Clip => given.clip = true,
            Flag::Exact => given.exact = true,
            Flag::Keys => given.keys = true,
        }
        Ok(())
    }

    // All words that are left, as options; by name, a list of names may be one of them.
    fn options(&mut self, by_name: bool) -> Result<Options<'a>, Usage>
        ensures ok { IfOk result (λ options. Says by_name nothing_given self.old (options_of options)) }
        ensures err { IfErr result (λ usage. Fails by_name nothing_given self.old usage.place) }
    {
        let mut given = Given::nothing();
        while !self.is_done() {
            self.option(&mut given, by_name)?;
        }
        Ok(given.options())
    }

    // What follows the word `ask`.
    pub(crate) fn ask(&mut self) -> Result<Ask<'a>, Usage>
        ensures ok { IfOk result (λ a. answers after_ask self.old ≡ Ok (ask (ask_of a))) }
        ensures err { IfErr result (λ usage. answers after_ask self.old ≡ Err usage.place) }
    {
        Ok(Ask {
            csv: self.word()?,
            schema: self.word()?,
            sql: self.word()?,
            options: self.options(true)?,
        })
    }

    // What follows the word `query`.
    pub(crate) fn query(&mut self) -> Result<Query<'a>, Usage>
        ensures ok { IfOk result (λ q. answers after_query self.old ≡ Ok (query (query_of q))) }
        ensures err { IfErr result (λ usage. answers after_query self.old ≡ Err usage.place) }
    {
        Ok(Query {
            file: self.word()?,
            sql: self.word()?,
            options: self.options(true)?,
        })
    }

    // What follows the word `session`.
    pub(crate) fn session(&mut self) -> Result<Session<'a>, Usage>
        ensures ok { IfOk result (λ s. answers after_session self.old ≡ Ok (session (session_of s))) }
        ensures err { IfErr result (λ usage. answers after_session self.old ≡ Err usage.place) }
    {
        Ok(Session {
            file: self.word()?,
            script: self.word()?,
            options: self.options(false)?,
        })
    }

    // What follows the word `load`.
    pub(crate) fn load(&mut self) -> Result<Load<'a>, Usage>
        ensures ok { IfOk result (λ l. answers after_load self.old ≡ Ok (load (load_of l))) }
        ensures err { IfErr result (λ usage. answers after_load self.old ≡ Err usage.place) }
    {
        let load = Load {
            csv: self.word()?,
            file: self.word()?,
            schema: self.word()?,
        };
        self.end()?;
        Ok(load)
    }

    // What follows the word `info`.
    pub(crate) fn info(&mut self) -> Result<Info<'a>, Usage>
        ensures ok { IfOk result (λ i. answers after_info self.old ≡ Ok (info (info_of i))) }
        ensures err { IfErr result (λ usage. answers after_info self.old ≡ Err usage.place) }
    {
        let info = Info { file: self.word()? };
        self.end()?;
        Ok(info)
    }

    // What follows the word `upgrade`.
    pub(crate) fn upgrade(&mut self) -> Result<Upgrade<'a>, Usage>
        ensures ok { IfOk result (λ u. answers after_upgrade self.old ≡ Ok (upgrade (upgrade_of u))) }
        ensures err { IfErr result (λ usage. answers after_upgrade self.old ≡ Err usage.place) }
    {
        let upgrade = Upgrade {
            older: self.word()?,
            newer: self.word()?,
        };
        self.end()?;
        Ok(upgrade)
    }

    // What follows the word `demo`.
    pub(crate) fn demo(&mut self) -> Result<Demo<'a>, Usage>
        ensures ok { IfOk result (λ d. answers after_demo self.old ≡ Ok (demo (demo_of d))) }
        ensures err { IfErr result (λ usage. answers after_demo self.old ≡ Err usage.place) }
    {
        Ok(Demo {
            seed: self.number(u64::MAX)?,
            rows: self.number(u64::MAX)?,
            sql: self.word()?,
            options: self.options(true)?,
        })
    }
    // The name of a limit that was not given yet.
    fn limit_name(&mut self, limits: &Limits) -> Result<Flag, Usage>
        requires { self.old.words ≢ [] }
        ensures ok { IfOk result (λ flag. NamesLimit (limits_of limits.now) self.old flag self.new) }
        ensures limit { IfOk result (λ flag. may_limit flag (limits_of limits.now) ≡ true) }
        ensures shorter { OnOk result (length self.new.words < length self.old.words) }
        ensures err { IfErr result (λ usage. LimitFails (limits_of limits.now) self.old usage.place) }
    {
        let refusal = self.refusal();
        match flag_of(self.word()?) {
            Some(flag) if limits.may_take(flag) => Ok(flag),
            _ => Err(refusal),
        }
    }

    // A limit that was not given yet.
    fn limit(&mut self, limits: &mut Limits) -> Result<(), Usage>
        requires { self.old.words ≢ [] }
        ensures ok { OnOk result (AddsLimit (limits_of limits.old) self.old (limits_of limits.new) self.new) }
        ensures shorter { OnOk result (length self.new.words < length self.old.words) }
        ensures err { IfErr result (λ usage. LimitFails (limits_of limits.old) self.old usage.place) }
    {
        match self.limit_name(limits)? {
            Flag::Width => limits.width = Some(self.number(MOST_WIDTH)?),
            Flag::Rounds => limits.rounds = Some(self.number(u32::MAX as u64)? as u32),
            Flag::Keys => limits.keys = true,
            Flag::Policy | Flag::Reads | Flag::List | Flag::Part | Flag::Clip | Flag::Exact => (),
        }
        Ok(())
    }

    // All words that are left, as limits.
    fn limits(&mut self) -> Result<Limits, Usage>
        ensures ok { IfOk result (λ limits. AllLimit no_limits self.old (limits_of limits)) }
        ensures err { IfErr result (λ usage. LimitFails no_limits self.old usage.place) }
    {
        let mut limits = Limits {
            width: None,
            rounds: None,
            keys: false,
        };
        while !self.is_done() {
            self.limit(&mut limits)?;
        }
        Ok(limits)
    }

    // What follows the word `combine`.
    pub(crate) fn combine(&mut self) -> Result<Combine<'a>, Usage>
        ensures ok { IfOk result (λ c. answers after_combine self.old ≡ Ok (combine (combine_of c))) }
        ensures err { IfErr result (λ usage. answers after_combine self.old ≡ Err usage.place) }
    {
        let parts = self.parts()?;
        let reports = self.word()?;
        let limits = self.limits()?;
        Ok(Combine {
            parts,
            reports,
            width: limits.width.unwrap_or(0),
            rounds: limits.rounds,
            keys: limits.keys,
        })
    }
}
