//! The times of packets.
ghost use Rattle.std.specs.Prelude.{◌≡◌, ◌≤◌, ◌<◌, ◌/◌, ◌^◌};
ghost use Rattle.fs_pcapng.specs.Time.{time_of};

/// So many units of an interface, in whole nanoseconds; the greatest moment where they are more.
pub(crate) fn time_of(unit: u8, count: u64) -> u64
    ensures { result ≡ time_of unit count }
{
    let scaled = count as u128 * 1_000_000_000;
    let time = if unit < 128 {
        divided(scaled, 10, unit)
    } else {
        divided(scaled, 2, unit - 128)
    };
    time.min(u64::MAX as u128) as u64
}

/// What is left of a number that is divided by a base so many times.
fn divided(scaled: u128, base: u128, exponent: u8) -> u128
    requires scaled { scaled < 2 ^ 100 }
    requires some { 2 ≤ base }
    requires few { base ≤ 10 }
    ensures { result ≡ scaled / base ^ exponent }
{
    let mut power: u128 = 1;
    'digits: for _ in 0..exponent {
        if power > scaled {
            return 0;
        }
        power *= base;
    }
    scaled / power
}
