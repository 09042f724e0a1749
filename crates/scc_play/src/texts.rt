//! The texts that a run prints.
ghost use Rattle.std.specs.Prelude.{◌≡◌, ◌++◌, IfOk, OnOk, codes, length, map};
ghost use Rattle.std.specs.Fmt.{decimal};
ghost use Rattle.std.specs.String.{string_bytes};
ghost use Rattle.scc_play.specs.Output.{value_line, pair_line, reply_line, key_reply_line, lines_of_all, worker_text, workers_text, contents_text, output_of};

use crate::printed::Printed;
use scc_calls::Reply;
use std::alloc::{AllocError, Global};
use std::fmt::Write;

/// Adds `word value` to `output`, or `none` if there is no value. Fails if memory is refused.
fn add_value(output: &mut String, word: &str, value: Option<u64>) -> Result<(), AllocError>
    ensures { OnOk result (string_bytes output.new ≡ string_bytes output.old ++ value_line word.now value) }
{
    match value {
        Some(value) => writeln!(output, "{word} {value}"),
        None => writeln!(output, "none"),
    }
}

/// Adds `word` and the pair to `output`, or `missing` if there is no pair. Fails if memory is refused.
fn add_pair(
    output: &mut String,
    word: &str,
    pair: Option<(u64, u64)>,
    missing: &str,
) -> Result<(), AllocError>
    ensures { OnOk result (string_bytes output.new ≡ string_bytes output.old ++ pair_line word.now pair missing.now) }
{
    match pair {
        Some((key, value)) => writeln!(output, "{word} {key} {value}"),
        None => writeln!(output, "{missing}"),
    }
}

/// Adds the line of a reply to `output`. Fails if memory is refused.
pub(crate) fn add_reply_line(output: &mut String, reply: Reply<u64, u64>) -> Result<(), AllocError>
    ensures { OnOk result (string_bytes output.new ≡ string_bytes output.old ++ reply_line reply) }
{
    match reply {
        Reply::Inserted | Reply::Cleared => writeln!(output, "ok"),
        Reply::Exists(key, value) => writeln!(output, "exists {key} {value}"),
        Reply::Old(value) => add_value(output, "old", value),
        Reply::Key(key) => add_value(output, "key", key),
        Reply::Pair(pair) => add_pair(output, "pair", pair, "none"),
        Reply::Value(value) => add_value(output, "value", value),
        Reply::Has(has) => writeln!(output, "{has}"),
        Reply::Evicted(pair) => add_pair(output, "evicted", pair, "ok"),
        Reply::Count(count) => writeln!(output, "count {count}"),
    }
}

/// Adds the line of a set's reply to `output`. Fails if memory is refused.
pub(crate) fn add_key_reply_line(
    output: &mut String,
    reply: Reply<u64, ()>,
) -> Result<(), AllocError>
    ensures { OnOk result (string_bytes output.new ≡ string_bytes output.old ++ key_reply_line reply) }
{
    match reply {
        Reply::Inserted | Reply::Cleared => writeln!(output, "ok"),
        Reply::Exists(key, ()) => writeln!(output, "exists {key}"),
        Reply::Key(key) => add_value(output, "key", key),
        Reply::Has(has) => writeln!(output, "{has}"),
        Reply::Count(count) => writeln!(output, "count {count}"),
        Reply::Old(_) | Reply::Pair(_) | Reply::Value(_) | Reply::Evicted(_) => Ok(()),
    }
}

/// Adds the line of a worker to `output`, and a line for each of its replies. Fails if memory is refused.
fn add_worker<P: Printed>(
    output: &mut String,
    worker: usize,
    replies: &[P::Reply],
) -> Result<(), AllocError>
    ensures { OnOk result (string_bytes output.new
        ≡ string_bytes output.old ++ worker_text P.reply_line worker replies.now) }
{
    writeln!(output, "worker {worker}")?;
    for reply in replies {
        P::add_reply(output, P::same_reply(reply))?;
    }
    Ok(())
}

/// Adds the lines of all workers to `output`, from worker 0 on. Fails if memory is refused.
fn add_workers<P: Printed>(output: &mut String, replies: &[Vec<P::Reply>]) -> Result<(), AllocError>
    ensures { OnOk result (string_bytes output.new
        ≡ string_bytes output.old ++ workers_text P.reply_line 0 (map (λ v. v.items) replies.now)) }
{
    for worker in 0..replies.len() {
        add_worker::<P>(output, worker, replies[worker].as_slice())?;
    }
    Ok(())
}

/// Adds the number of items to `output`, and a line for each item. Fails if memory is refused.
fn add_contents<P: Printed>(output: &mut String, items: &[P::Item]) -> Result<(), AllocError>
    ensures { OnOk result (string_bytes output.new ≡ string_bytes output.old ++ contents_text P.item_line items.now) }
{
    let count = items.len();
    writeln!(output, "contents {count}")?;
    for item in items {
        P::add_item(output, *item)?;
    }
    Ok(())
}

/// Returns the output of a run: the replies of each worker, the contents, and the number of call records. `items` are
/// the contents in rising order. Fails if memory is refused.
pub fn output_text<P: Printed>(
    alloc: Global,
    replies: &[Vec<P::Reply>],
    items: &[P::Item],
    records: usize,
) -> Result<String, AllocError>
    ensures { IfOk result (λ text. string_bytes text
        ≡ output_of P.reply_line P.item_line (map (λ v. v.items) replies.now) items.now records) }
{
    let mut output = String::new(alloc);
    add_workers::<P>(&mut output, replies)?;
    add_contents::<P>(&mut output, items)?;
    writeln!(&mut output, "records {records}")?;
    Ok(output)
}
