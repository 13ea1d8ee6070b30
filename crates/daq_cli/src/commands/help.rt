//! `help`: what the commands are, their options, and what they take.

ghost use Rattle.std.specs.Prelude.{OnOk, IfErr};
ghost use Rattle.outer_world.specs.Whole.{Writes};
ghost use Rattle.daq_cli.specs.Notices.{NoticeCause};
ghost use Rattle.daq_cli.specs.Worlds.{whole};
ghost use Rattle.daq_cli.specs.commands.Help.{help_text};

use crate::refusal::Refusal;
use outer_world::{Failed, Sink, write_pieces};
use plane_schedule::FixedPolicy;

// Writes what the program is, each command and each option, what holds of schemas, and the limits of queries.
#[tactic(auto, unfolding(crate::specs::commands::Help::help_text))]
fn write_help<K: Sink>(out: &mut K) -> Result<(), Failed>
    ensures { Writes result (K.state out.old) (K.state out.new) help_text }
{
    write_pieces(
        out,
        &[
            b"daq answers SQL aggregates over a table by intervals that certainly contain the answers, narrowed plane by plane.\n\n",
            b"  daq load CSV FILE SCHEMA             writes the table of a CSV as a plane file\n",
            b"  daq query FILE SQL [OPTION ..]       asks a plane file\n",
            b"  daq session FILE SCRIPT [OPTION ..]  asks a plane file the queries of a script, one in a line, and reads each plane once\n",
            b"  daq info FILE                        prints what the head of a plane file declares\n",
            b"  daq upgrade OLD NEW                  writes the table of a plane file in the newest version of the format\n",
            b"  daq ask CSV SCHEMA SQL [OPTION ..]   asks a CSV\n",
            b"  daq demo SEED ROWS SQL [OPTION ..]   asks a table that is made from a seed\n",
            b"  daq combine PARTS REPORTS [LIMIT ..] joins the reports of the parts of a table; a limit is --width, --rounds or --keys\n",
            b"  daq help                             prints this help, as do daq --help and daq -h\n",
            b"  daq --version                        prints the version, as does daq -V\n\n",
            b"  --width NUMBER    ends once each interval is this narrow, in units of the last digit shown\n",
            b"  --rounds NUMBER   ends after so many planes\n",
            b"  --policy POLICY   which column is read next: ",
            FixedPolicy::words(),
            b"\n",
            b"  --reads NAME,..   reads these columns, a plane each, in this order; not in a session\n",
            b"  --list            with ORDER BY, also shows the rows that may be among the first\n",
            b"  --part            with ORDER BY, lists as --list does, for combine; a round of over 100,000 rows lists none\n",
            b"  --keys            with ORDER BY, ends only once the keys of the first rows are this narrow too\n",
            b"  --clip            shows the interval of a sum or an extreme whose column the condition clips\n",
            b"  --exact-avg       shows the exact extremes of an average\n\n",
            b"A schema names each column of the CSV with its type: int, dec0 to dec9, date or text, ? where it may be empty, or skip:\n\n",
            b"  daq ask shop.csv price:int,qty:int?,city:text 'SELECT city, SUM(price) FROM t WHERE qty > 2 GROUP BY city'\n\n",
            b"The table is always t. A query has at most 16 columns, 16 aggregates, 64 values in an IN, and 1,000 rows behind LIMIT.\n",
            b"A session has at most 16 queries, which name 16 columns together. The manual: man daq\n",
        ],
    )
}

// Writes the help. It takes no memory.
pub(crate) fn carry_out<K: Sink>(out: &mut K) -> Result<(), Refusal>
    ensures done { OnOk result (Writes whole (K.state out.old) (K.state out.new) help_text) }
    ensures refused { IfErr result (NoticeCause help_text (K.state out.old) (K.state out.new)) }
{
    write_help(out)?;
    Ok(())
}
