// What a line `t` sets of the terminal.
use crate::numbers::{one, two};
use foreground::disposition::Handling;
use foreground::group::Group;
use foreground::session::Member;

// The terminal itself, which is set before the first call, or one of its values.
#[derive(Clone, Copy)]
pub(crate) enum Setting {
    Absent,
    // Every group is in the session, and none is empty.
    Open {
        own: Group,
        foreground: Option<Group>,
    },
    // The groups of the session are those that lines name, and the own one.
    Listed {
        own: Group,
        foreground: Option<Group>,
        settings: u32,
        handling: Handling,
    },
    Member(Member),
    Foreground(Option<Group>),
    Settings(u32),
}

// The group of this number; none for a number that no group has.
fn group(number: u64) -> Option<Group> {
    Group::try_from(u32::try_from(number).ok()?).ok()
}

fn handling(number: u64) -> Handling {
    match number {
        0 => Handling::Default,
        1 => Handling::Ignored,
        _ => Handling::Caught,
    }
}

fn open(fields: &str) -> Option<Setting> {
    let (own, foreground) = two(fields)?;
    Some(Setting::Open {
        own: group(own)?,
        foreground: group(foreground),
    })
}

// The own group, the foreground, the settings, and the handling of signal 22.
fn listed(fields: &str) -> Option<Setting> {
    let (own, rest) = fields.split_once('\t')?;
    let (foreground, rest) = rest.split_once('\t')?;
    let (settings, handled) = two(rest)?;
    Some(Setting::Listed {
        own: group(one(own)?)?,
        foreground: group(one(foreground)?),
        settings: u32::try_from(settings).ok()?,
        handling: handling(handled),
    })
}

// A group of the session, and 0 if it is empty.
fn member(fields: &str) -> Option<Setting> {
    let (number, full) = two(fields)?;
    Some(Setting::Member(Member {
        group: group(number)?,
        empty: full == 0,
    }))
}

// The setting of these fields: its name and its numbers.
pub(crate) fn read_setting(fields: &str) -> Option<Setting> {
    let Some((name, numbers)) = fields.split_once('\t') else {
        return (fields == "absent").then_some(Setting::Absent);
    };
    match name {
        "lax" => open(numbers),
        "sim" => listed(numbers),
        "group" => member(numbers),
        "fg" => Some(Setting::Foreground(group(one(numbers)?))),
        "settings" => Some(Setting::Settings(u32::try_from(one(numbers)?).ok()?)),
        _ => None,
    }
}
