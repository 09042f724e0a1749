//! The lines that a measurement prints.
use std::io;
use std::time::Duration;

/// Returns a duration in nanoseconds, or the greatest number if they don't fit.
pub fn nanos(spent: Duration) -> u64 {
    u64::try_from(spent.as_nanos()).unwrap_or(u64::MAX)
}

/// Returns a quotient in hundredths, rounded down.
fn hundredths(total: u64, count: u64) -> u64 {
    total.saturating_mul(100) / count.max(1)
}

/// Prints a quotient to two places.
pub fn line(rt: &impl Print, work: &str, peer: &str, total: u64, count: u64) -> io::Result<()> {
    let quotient = hundredths(total, count);
    println!(rt; "{work} {peer} {}.{:02}", quotient / 100, quotient % 100)
}

/// Prints a quotient to two places, of a workload with `threads` threads.
pub fn threads_line(
    rt: &impl Print,
    work: &str,
    threads: u64,
    peer: &str,
    total: u64,
    count: u64,
) -> io::Result<()> {
    let quotient = hundredths(total, count);
    println!(rt;
        "{work}_t{threads} {peer} {}.{:02}",
        quotient / 100,
        quotient % 100
    )
}

/// Prints a sum in which all peers must agree.
pub fn check(rt: &impl Print, work: &str, peer: &str, sum: u64) -> io::Result<()> {
    println!(rt; "check {work} {peer} {sum}")
}

/// Prints a sum in which all peers must agree, of a workload with `threads` threads.
pub fn threads_check(
    rt: &impl Print,
    work: &str,
    threads: u64,
    peer: &str,
    sum: u64,
) -> io::Result<()> {
    println!(rt; "check {work}_t{threads} {peer} {sum}")
}

/// The quantiles that are printed, in thousandths: half, 99 %, 99.9 % and all.
const QUANTILES: [usize; 4] = [500, 990, 999, 1000];

/// Returns the time at `thousandths` of the sorted times.
fn quantile(sorted: &[u64], thousandths: usize) -> u64 {
    let place = sorted.len().saturating_sub(1).saturating_mul(thousandths) / 1000;
    sorted.get(place).copied().unwrap_or(0)
}

/// Prints under `names` what half, 99 %, 99.9 % and all of the sorted times are at most.
pub fn print_quantiles(
    rt: &impl Print,
    names: [&str; 4],
    peer: &str,
    sorted: &[u64],
) -> io::Result<()> {
    for place in 0..4 {
        line(
            rt,
            names[place],
            peer,
            quantile(sorted, QUANTILES[place]),
            1,
        )?;
    }
    Ok(())
}
