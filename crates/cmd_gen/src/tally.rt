//! What becomes of packets, counted.

ghost use Rattle.std.specs.Prelude.{◌≡◌, ◌<◌, ◌+◌, ◌-◌, ◌^◌, vec_capacity};
ghost use Rattle.cmd_enforce.specs.{Judge.{AdmittedRules}, Matcher.{HasRoom, IsSound, StandsFor}};
ghost use Rattle.cmd_gen.specs.Command.{is_dropped, is_passed, one_if};
ghost use Rattle.fs_base.specs.declared.link.Link.TheVariants.{Raw};
ghost use Rattle.fs_packet.specs.Reading.{view_of};

use cmd_enforce::drops;
use fs_base::Link;
use fs_compile::Compiled;
use fs_line::Walked;
use fs_packet::view;

/// How many packets pass, and how many are dropped.
#[derive(Clone, Copy, Drop)]
pub(crate) struct Tally {
    pub(crate) passed: u32,
    pub(crate) dropped: u32,
}

impl Tally {
    /// With one packet more, which has no link header. One that can't be read neither passes nor is dropped.
    pub(crate) fn with<'r>(
        self,
        rules: &'r Compiled,
        octets: &[u8],
        walked: &mut Vec<Walked<'r>>,
    ) -> Tally
        requires sound { IsSound rules.now }
        requires room { HasRoom rules.now (vec_capacity walked.old) }
        requires passed { self.passed < 2 ^ 32 - 1 }
        requires dropped { self.dropped < 2 ^ 32 - 1 }
        ensures room { vec_capacity walked.new ≡ vec_capacity walked.old }
        ensures passed { (admitted : AdmittedRules)
            → StandsFor admitted rules.now
            → result.passed ≡ self.passed + one_if (is_passed admitted (view_of Raw octets.now)) }
        ensures dropped { (admitted : AdmittedRules)
            → StandsFor admitted rules.now
            → result.dropped ≡ self.dropped + one_if (is_dropped admitted (view_of Raw octets.now)) }
    {
        match view(Link::Raw, octets) {
            Ok(view) if drops(rules, &view, walked) => Tally {
                dropped: self.dropped + 1,
                ..self
            },
            Ok(_) => Tally {
                passed: self.passed + 1,
                ..self
            },
            Err(_) => self,
        }
    }
}
