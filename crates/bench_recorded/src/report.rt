//! The lines that are printed.
ghost use Rattle.std.specs.Prelude.{◌≡◌, ◌*◌, ◌/◌, max, min};

use std::io;

/// Returns a quotient in hundredths, rounded down. The dividend times 100 stays at the greatest number that fits.
fn hundredths(total: u64, count: u64) -> u64
    ensures { result ≡ min 18446744073709551615 (total * 100) / max count 1 }
{
    total.saturating_mul(100) / count.max(1)
}

/// Prints the time of one of `calls` calls, and the ratio of `spent` to the time of the plain calls.
pub(crate) fn line(
    rt: &impl Print,
    name: &str,
    spent: u64,
    calls: u64,
    plain: u64,
) -> io::Result<()> {
    let each = hundredths(spent, calls);
    let ratio = hundredths(spent, plain);
    println!(rt;
        "{name} {}.{:02} {}.{:02}",
        each / 100,
        each % 100,
        ratio / 100,
        ratio % 100
    )
}

/// Prints a sum in which all measures must agree.
pub(crate) fn check(rt: &impl Print, name: &str, sum: u64) -> io::Result<()> {
    println!(rt; "check {name} {sum}")
}
