// The command that a job manages, and the options of a spawn.
ghost use Rattle.std.specs.Prelude.{◌≡◌, Some, None, MatchResult};
ghost use Rattle.host.specs.Command as Options;

// Options of a spawn. Each is a mark with a number of its own; a set of them is written as their sum.
#[derive(Clone, Copy, Debug, Default, PartialEq, Eq)]
pub struct SpawnOptions {
    pub grouped: bool,
    pub session: bool,
    pub reset_sigmask: bool,
    pub grant_foreground: bool,
}

// A program, named by a number from 1 to 255, and the options that it is spawned with.
#[derive(Clone, Copy, Debug, PartialEq, Eq)]
pub struct Command {
    pub program: u8,
    pub options: SpawnOptions,
}

impl Command {
    // Whether the foreground is to be granted to its child's group. The command's own options say so, also where a hook gave others
    // for a spawn.
    pub fn wants_grant(self) -> bool
        ensures { result ≡ Options.wants_grant self }
    {
        let options = self.options;
        options.grant_foreground && options.grouped && !options.session
    }
}

// A number that is no sum of marks.
#[derive(Clone, Copy, Debug, PartialEq, Eq)]
pub struct NoSum {
    pub number: u8,
}

// The sum of the marks that are set.
impl From<SpawnOptions> for u8 {
    ghost from_gives = { λ options sum. sum ≡ Options.sum_of options };

    fn from(options: SpawnOptions) -> u8 {
        u8::from(options.grouped)
            + 2 * u8::from(options.session)
            + 4 * u8::from(options.reset_sigmask)
            + 8 * u8::from(options.grant_foreground)
    }
}

// The options that a number from 0 to 15 is the sum of.
impl TryFrom<u8> for SpawnOptions {
    type Error = NoSum;

    ghost try_from_gives = { λ sum r. MatchResult r (λ options. Options.options_of sum
        ≡ Some options) (λ error. (Options.options_of sum ≡ None) × (error.number ≡ sum)) };

    fn try_from(sum: u8) -> Result<SpawnOptions, NoSum> {
        if sum > 15 {
            return Err(NoSum { number: sum });
        }
        Ok(SpawnOptions {
            grouped: sum % 2 == 1,
            session: sum / 2 % 2 == 1,
            reset_sigmask: sum / 4 % 2 == 1,
            grant_foreground: sum / 8 % 2 == 1,
        })
    }
}
