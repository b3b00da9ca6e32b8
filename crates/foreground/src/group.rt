// Process groups.
ghost use Rattle.std.specs.Prelude.{◌≡◌, ◌^◌, ◌<◌, ◌≤◌, MatchResult};

// A group's number is from 1 to 2^31 − 1.
#[derive(Clone, Copy, Debug, PartialEq, Eq)]
pub struct Group {
    pub number: u32,
    ghost low: { 1 ≤ number },
    ghost high: { number < 2 ^ 31 },
}

// A number that no group has.
#[derive(Clone, Copy, Debug, PartialEq, Eq)]
pub struct NoGroup {
    pub number: u32,
}

impl TryFrom<u32> for Group {
    type Error = NoGroup;

    ghost use Rattle.foreground.specs.Group.{IsGroup};

    ghost try_from_gives = { λ number r. MatchResult r
        (λ group. group.number ≡ number)
        (λ error. ¬ IsGroup number × (error.number ≡ number)) };

    fn try_from(number: u32) -> Result<Group, NoGroup> {
        match number {
            1..=0x7FFF_FFFF => Ok(Group { number }),
            _ => Err(NoGroup { number }),
        }
    }
}
