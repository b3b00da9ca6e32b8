// The ticket table of a job. A ticket is a flag that is raised once; the table knows it by its serial.
ghost use Rattle.std.specs.Prelude.{◌≡◌, ◌<◌, Bool, IfSome, Some, length, nat_le};
ghost use Rattle.std.specs.List.{find, position};
ghost use Rattle.std.specs.Option.{option_copied};
ghost use Rattle.tickets.specs.Searches.{Computes, Tests};
ghost use Rattle.tickets.specs.Tickets.{TicketsView, Place, change, mark_of, free_places, fresh_tickets, issue, raise, raise_each, raise_place, stands, ticket_room, vacate, waits};

use std::marker::Model;

// The mark of a ticket that has a place in the table.
#[derive(Clone, Copy, PartialEq, Eq, Debug)]
pub enum Mark {
    // It waits, and nobody holds it.
    Unheld,
    // It waits and is held.
    Held,
    // It is raised and held.
    Raised,
}

// What lies in the table for a ticket: its serial and its mark.
#[derive(Clone, Copy, PartialEq, Eq, Debug)]
pub struct Entry {
    pub ticket: u32,
    pub mark: Mark,
}

// A place of the table: its entry, or none where it is free.
type Place = Option<Entry>;

impl Entry {
    // Whether it is that of this ticket, which waits.
    fn waits(self, ticket: u32) -> bool
        ensures { result ≡ waits ticket (Some self) }
    {
        self.mark != Mark::Raised && ticket == self.ticket
    }

    // Its place once its ticket is raised; a ticket that nobody holds leaves its place.
    fn raised(self) -> Place
        ensures { result ≡ raise_place (Some self) }
    {
        match self.mark {
            Mark::Unheld => None,
            Mark::Held | Mark::Raised => Some(Entry {
                mark: Mark::Raised,
                ..self
            }),
        }
    }
}

// The first place that `passes` picks.
fn place<P: Fn(&Place) -> bool>(entries: &[Place], passes: P) -> Option<usize>
    requires { P.IsAlwaysCallable passes }
    ensures bound { IfSome result (λ at. at < length entries.now) }
    ensures first { (p : Place → Bool) → Tests P.Fn passes p → result ≡ position p entries.now }
{
    entries.iter().position(passes)
}

// Changes the first place that `passes` picks, or nothing where it picks none.
#[tactic(auto, using(crate::proofs::Tables::changes))]
fn change<P: Fn(&Place) -> bool, F: FnOnce(Place) -> Place>(entries: &mut [Place], passes: P, to: F)
    requires passes { P.IsAlwaysCallable passes }
    requires to { F.IsAlwaysCallable to }
    ensures { (p : Place → Bool) (f : Place → Place) → Tests P.Fn passes p
        → Computes F.FnOnce to f → entries.new ≡ change p f entries.old }
{
    if let Some(at) = place(entries, passes) {
        entries[at] = to(entries[at]);
    }
}

// The place of a ticket.
fn place_of(entries: &[Place], ticket: u32) -> Option<&Place>
    ensures { option_copied result ≡ find (stands ticket) entries.now }
{
    entries
        .iter()
        .find(|place| place.is_some_and(|entry| entry.ticket == ticket))
}

// Whether `n` places are free; none is looked at once so many are found.
fn has_free(entries: &[Place], n: usize) -> bool
    ensures { result ≡ nat_le n (free_places entries.now) }
{
    let free = entries.iter().filter(|place| place.is_none());
    free.take(n).count() == n
}

// The places of a table.
pub const PLACES: usize = 256;

// The places, and the last serial given out. Serials count from 1 and are never given twice. The places are an array that is
// searched, and no map, since the memory of a job is fixed.
#[derive(Clone, Copy)]
pub struct Tickets {
    entries: [Place; PLACES],
    issued: u32,
}

impl Model for Tickets {
    ghost Value = { TicketsView };

    ghost view = { λ t. record { table = t.entries; issued = t.issued } };

    ghost invariant = { λ t. length t.entries ≡ 256 };

    ghost inverse = { λ v. record { entries = v.table; issued = v.issued } };
}

impl Tickets {
    // A table with every place free.
    pub fn new() -> Self
        ensures { result ≡ fresh_tickets }
    {
        Tickets {
            entries: [None; PLACES],
            issued: 0,
        }
    }

    // Whether `n` more tickets can be given: whether there are places and serials for them. A table has 256 places.
    pub fn fits(&self, n: usize) -> bool
        ensures answer { result ≡ ticket_room n self.now.issued self.now.table }
        ensures full { length self.now.table ≡ 256 }
    {
        has_free(&self.entries, n)
            && u32::try_from(n).is_ok_and(|n| self.issued.checked_add(n).is_some())
    }

    // Gives the ticket with the next serial the first free place; none where there is no place or no serial.
    pub fn issue(&mut self, held: bool) -> Option<u32>
        ensures { (self.new, result) ≡ issue held self.old }
    {
        // `fits` is asked, though `change` searches again: with the free place itself, the proof doesn't close.
        if !self.fits(1) {
            return None;
        }
        let ticket = self.issued + 1;
        let mark = if held { Mark::Held } else { Mark::Unheld };
        change(
            &mut self.entries,
            Option::is_none,
            |_| Some(Entry { ticket, mark }),
        );
        self.issued = ticket;
        Some(ticket)
    }

    // Raises a waiting ticket; nothing changes where it doesn't wait.
    pub fn raise(&mut self, ticket: u32)
        ensures { self.new ≡ record self.old { table = raise ticket self.old.table } }
    {
        change(
            &mut self.entries,
            |place| place.is_some_and(|entry| entry.waits(ticket)),
            |place| place.and_then(Entry::raised),
        );
    }

    // The mark of a ticket; none where it has no place.
    pub fn mark(&self, ticket: u32) -> Option<Mark>
        ensures { result ≡ mark_of ticket self.now.table }
    {
        place_of(&self.entries, ticket)
            .copied()
            .flatten()
            .map(|entry| entry.mark)
    }

    // Frees the place of a ticket, whatever its mark; nothing changes where it has none.
    pub fn vacate(&mut self, ticket: u32)
        ensures { self.new ≡ record self.old { table = vacate ticket self.old.table } }
    {
        change(
            &mut self.entries,
            |place| place.is_some_and(|entry| entry.ticket == ticket),
            |_| None,
        );
    }
}

#[cfg(test)]
mod tests {
    use super::*;

    #[test]
    fn a_full_table_gives_no_ticket(rt: HostRuntime) {
        let mut tickets = Tickets::new();
        assert!(rt; tickets.fits(256) && !tickets.fits(257));
        for serial in 1..=256u32 {
            assert_eq!(rt; tickets.issue(true), Some(serial));
        }
        assert!(rt; tickets.fits(0) && !tickets.fits(1));
        assert_eq!(rt; tickets.issue(true), None);
        tickets.vacate(7);
        assert_eq!(rt; tickets.issue(true), Some(257));
        assert_eq!(rt; tickets.entries[6].map(|entry| entry.ticket), Some(257));
    }

    #[test]
    fn serials_end_at_the_largest(rt: HostRuntime) {
        let mut tickets = Tickets {
            entries: [None; 256],
            issued: u32::MAX - 1,
        };
        assert!(rt; tickets.fits(1) && !tickets.fits(2));
        assert_eq!(rt; tickets.issue(true), Some(u32::MAX));
        assert!(rt; !tickets.fits(1));
        assert_eq!(rt; tickets.issue(true), None);
        assert_eq!(rt; tickets.mark(u32::MAX), Some(Mark::Held));
    }
}
