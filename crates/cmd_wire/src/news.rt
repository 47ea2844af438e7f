//! The lines of `keep`.

ghost use Rattle.std.specs.{Prelude.{◌≡◌, ◌≤◌, IfOk, OnErr, OnOk, string_bytes}, Result.{IsErrOf}};
ghost use Rattle.fs_base.specs.{Outside.{Rose}, Sink.{Grew, GrewPart}};
ghost use Rattle.cmd_wire.specs.News.{kept_text, line_of, news_text};

use fs_base::{Memory, Sink, write_all};
use fs_peering::News;
use fs_recorder::Stop;
use std::alloc::Global;

/// Writes the line of what there is to tell of a session, if there is anything, at a moment in nanoseconds from 1970.
///
/// # Errors
///
/// `Failed` where the sink failed, `Memory` where the machine refused memory; a front of the line was written then.
pub(crate) fn write_news<S: Sink>(
    alloc: Global,
    moment: u64,
    news: Option<News>,
    sink: &mut S,
) -> Result<(), Stop>
    ensures bounded { IsErrOf result Stop.Limit → ⊥ }
    ensures later { S.faults sink.old ≤ S.faults sink.new }
    ensures failed { IsErrOf result Stop.Failed → Rose (S.faults sink.old) (S.faults sink.new) }
    ensures ok { OnOk result (Grew (S.written sink.old) (S.written sink.new) (line_of moment news)) }
    ensures err { OnErr result (GrewPart (S.written sink.old) (S.written sink.new) (line_of moment news)) }
{
    match news {
        Some(news) => {
            let line = news_line(alloc, moment, news)?;
            write_line(&line, sink)
        }
        None => Ok(()),
    }
}

/// Writes the line of a rules file that isn't accepted.
///
/// # Errors
///
/// `Failed` where the sink failed, `Memory` where the machine refused memory; a front of the line was written then.
pub(crate) fn write_kept<S: Sink>(
    alloc: Global,
    moment: u64,
    reason: &str,
    sink: &mut S,
) -> Result<(), Stop>
    ensures bounded { IsErrOf result Stop.Limit → ⊥ }
    ensures later { S.faults sink.old ≤ S.faults sink.new }
    ensures failed { IsErrOf result Stop.Failed → Rose (S.faults sink.old) (S.faults sink.new) }
    ensures ok { OnOk result (Grew (S.written sink.old) (S.written sink.new) (kept_text moment reason.now)) }
    ensures err { OnErr result (GrewPart (S.written sink.old) (S.written sink.new) (kept_text moment reason.now)) }
{
    let line = kept_line(alloc, moment, reason)?;
    write_line(&line, sink)
}

/// Writes a line.
fn write_line<S: Sink>(line: &str, sink: &mut S) -> Result<(), Stop>
    ensures bounded { IsErrOf result Stop.Limit → ⊥ }
    ensures later { S.faults sink.old ≤ S.faults sink.new }
    ensures failed { IsErrOf result Stop.Failed → Rose (S.faults sink.old) (S.faults sink.new) }
    ensures ok { OnOk result (Grew (S.written sink.old) (S.written sink.new) line.now) }
    ensures err { OnErr result (GrewPart (S.written sink.old) (S.written sink.new) line.now) }
{
    write_all(sink, line.as_bytes())?;
    Ok(())
}

/// The line of what there is to tell of a session.
fn news_line(alloc: Global, moment: u64, news: News) -> Result<String, Memory>
    ensures { IfOk result (λ line. string_bytes line ≡ news_text moment news) }
{
    match news {
        News::Up => Ok(format!(in alloc; "{moment} up\n")?),
        News::Told {
            announced,
            withdrawn,
        } => Ok(format!(in alloc; "{moment} sent {announced} withdrawn {withdrawn}\n")?),
        News::Closed { code, subcode } => {
            Ok(format!(in alloc; "{moment} closed {code}/{subcode}\n")?)
        }
        News::Notified { code, subcode } => {
            Ok(format!(in alloc; "{moment} notified {code}/{subcode}\n")?)
        }
        News::Ended => Ok(format!(in alloc; "{moment} ended\n")?),
        News::Unreached => Ok(format!(in alloc; "{moment} unreached\n")?),
    }
}

/// The line of a rules file that isn't accepted.
fn kept_line(alloc: Global, moment: u64, reason: &str) -> Result<String, Memory>
    ensures { IfOk result (λ line. string_bytes line ≡ kept_text moment reason.now) }
{
    Ok(format!(in alloc; "{moment} kept {reason}\n")?)
}
