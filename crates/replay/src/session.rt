// The terminal of a script: a simulated one, also for one that is absent and for one whose session
// has every group.
ghost use Rattle.replay.specs.Terminals.{OnlyGroups};

use crate::setting::Setting;
use foreground::disposition::Handling;
use foreground::group::Group;
use foreground::session::{Member, PLACES};
use foreground::simulated::SimulatedTerminal;
use host::journal::{Answer, CallKind, Record};

// Which groups are in the session.
#[derive(Clone, Copy, PartialEq, Eq)]
enum Groups {
    // There is no terminal: nobody has its foreground, and nobody gets it.
    Absent,
    All,
    Listed,
}

#[derive(Drop)]
pub(crate) struct Session {
    pub(crate) terminal: SimulatedTerminal,
    groups: Groups,
    // The groups that stand in the terminal's places.
    places: [Option<Group>; PLACES],
}

const OWN: usize = 0;

// The place of the child, where the session has every group: a host with a sheet has one child at
// most.
const CHILD: usize = 1;

impl Session {
    // The terminal of a supervisor in this group, which stands in the session.
    fn with(own: Group, groups: Groups, foreground: Option<Group>) -> Session {
        let mut session = Session {
            terminal: SimulatedTerminal::new(own),
            groups,
            places: [None; PLACES],
        };
        session.put(
            OWN,
            Member {
                group: own,
                empty: false,
            },
        );
        session.terminal.set_foreground(foreground);
        session
    }

    pub(crate) fn absent() -> Session {
        Session::with(Group { number: 1 }, Groups::Absent, None)
    }

    fn put(&mut self, place: usize, member: Member)
        ensures { OnlyGroups self.old self.new }
    {
        if place < PLACES {
            self.places[place] = Some(member.group);
        }
        let _ = self.terminal.set_place(place, Some(member));
    }

    // Where the group stands, or where there is room for it.
    fn place_of(&self, group: Group) -> Option<usize> {
        let stands = self.places.iter().position(|place| *place == Some(group));
        stands.or(self.places.iter().position(|place| place.is_none()))
    }

    // Lists a group; the own one is in the session, and not empty, whatever is said of it.
    fn list(&mut self, member: Member) -> bool
        ensures { OnlyGroups self.old self.new }
    {
        match self.place_of(member.group) {
            Some(OWN) => true,
            Some(place) => {
                self.put(place, member);
                true
            }
            None => false,
        }
    }

    fn simulate(
        &mut self,
        own: Group,
        foreground: Option<Group>,
        settings: u32,
        handling: Handling,
    ) {
        *self = Session::with(own, Groups::Listed, foreground);
        self.terminal.set_settings(settings);
        self.terminal.set_handling(handling);
    }

    // Sets what a line says; false if there is no place for a group.
    pub(crate) fn set(&mut self, setting: Setting) -> bool {
        match setting {
            Setting::Absent => *self = Session::absent(),
            Setting::Open { own, foreground } => {
                *self = Session::with(own, Groups::All, foreground);
            }
            Setting::Listed {
                own,
                foreground,
                settings,
                handling,
            } => self.simulate(own, foreground, settings, handling),
            Setting::Member(member) if self.groups == Groups::Listed => return self.list(member),
            Setting::Foreground(foreground) if self.groups != Groups::Absent => {
                self.terminal.set_foreground(foreground);
            }
            Setting::Settings(settings) => self.terminal.set_settings(settings),
            Setting::Member(_) | Setting::Foreground(_) => (),
        }
        true
    }

    // Where every group is in the session, the group of a child that was spawned is.
    pub(crate) fn admit(&mut self, records: &[Record])
        ensures { OnlyGroups self.old self.new }
    {
        if self.groups != Groups::All {
            return;
        }
        for record in records {
            if let (CallKind::Spawn, Answer::Child(child)) = (record.call, record.answer)
                && let Ok(group) = Group::try_from(child)
            {
                self.put(
                    CHILD,
                    Member {
                        group,
                        empty: false,
                    },
                );
            }
        }
    }
}
