// The groups of the terminal's session.
ghost use Rattle.std.specs.Prelude.{◌≡◌};

use crate::group::Group;

// The places for groups of the session.
pub const PLACES: usize = 16;

// A group of the session; an empty one has no process left.
#[derive(Clone, Copy, Debug, PartialEq, Eq)]
pub struct Member {
    pub group: Group,
    pub empty: bool,
}

// A number that no place has.
#[derive(Clone, Copy, Debug, PartialEq, Eq)]
pub struct NoPlace {
    pub place: usize,
}

#[derive(Drop)]
pub(crate) struct Session {
    places: [Option<Member>; PLACES],
}

impl Session {
    ghost use Rattle.std.specs.Prelude.{replicate};
    ghost use Rattle.foreground.specs.Session.{has_process, is_in_session, put};

    pub(crate) fn new() -> Self
        ensures { result.places ≡ replicate 16 None }
    {
        Session {
            places: [None; PLACES],
        }
    }

    // Whether the group stands in one of the places.
    pub(crate) fn has(&self, group: Group) -> bool
        ensures { result ≡ is_in_session group.number self.now.places }
    {
        self.places.iter().any(|place| {
            place.is_some_and(|member| member.group.number == group.number)
        })
    }

    // Whether the group stands in one of the places, and isn't empty there.
    pub(crate) fn has_process(&self, group: Group) -> bool
        ensures { result ≡ has_process group.number self.now.places }
    {
        self.places.iter().any(|place| {
            place.is_some_and(|member| member.group.number == group.number && !member.empty)
        })
    }

    pub(crate) fn put(&mut self, place: usize, member: Option<Member>) -> Result<(), NoPlace>
        ensures { (result, self.new.places) ≡ put place member self.old.places }
    {
        if place >= PLACES {
            return Err(NoPlace { place });
        }
        self.places[place] = member;
        Ok(())
    }
}
