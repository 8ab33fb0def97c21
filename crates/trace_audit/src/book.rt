//! What the lines so far say, as far as it matters for the next line.
ghost use Rattle.std.specs.Prelude.{◌≡◌, List, [], IfOk};
ghost use Rattle.std.specs.BTreeMap.{get, btree_map_len};
ghost use Rattle.std.specs.Ordering.{nat_cmp};

use crate::reading::{FinalWait, Saying, TraceLine};
use std::alloc::{AllocError, Global};
use std::collections::BTreeMap;

/// An open call, as an audit keeps it. (It is public because laws are about it.)
#[derive(Clone, Copy)]
pub struct Open {
    /// The number of the call, from 1 on.
    pub call: u64,
    /// Whether its server has taken it.
    pub taken: bool,
}

/// What the good lines so far have said.
#[derive(Drop)]
pub(crate) struct Book {
    /// The turn of the last line that belongs to a turn.
    pub(crate) turn: u64,
    /// Whether the line that ends the turns has come.
    pub(crate) ended: bool,
    /// How many calls were offered. This is the number of the last one, because numbers begin with
    /// 1.
    pub(crate) offered: u64,
    /// The client of each open call.
    pub(crate) clients: BTreeMap<u64, u64>,
    /// The open call of each client that has one.
    pub(crate) calls: BTreeMap<u64, Open>,
}

impl Book {
    ghost use Rattle.trace_audit.specs.Books.{open_by, waits_as, kept_in, HasHeard, Notes, IsRest, IsKept, Adds};
    ghost use Rattle.trace_audit.specs.declared.reading.Saying.{Saying as Word};
    ghost use Rattle.trace_audit.specs.declared.reading.TraceLine.{TraceLine as Said};

    /// The book before the first line.
    pub(crate) fn new(alloc: Global) -> Book
        ensures { IsKept [] result }
    {
        Book {
            turn: 0,
            ended: false,
            offered: 0,
            clients: BTreeMap::new(alloc),
            calls: BTreeMap::new(alloc),
        }
    }

    /// Whether the line that ends the turns has come.
    pub(crate) fn has_ended(&self) -> bool
        ensures { result ≡ self.now.ended }
    {
        self.ended
    }

    /// How many calls were offered.
    pub(crate) fn offered(&self) -> u64
        ensures { result ≡ self.now.offered }
    {
        self.offered
    }

    /// How many calls are open.
    pub(crate) fn left(&self) -> u64
        ensures { result ≡ btree_map_len self.now.calls }
    {
        self.calls.len() as u64
    }

    /// The client of a call, if that is open.
    fn client_of(&self, call: u64) -> Option<u64>
        ensures { result ≡ get nat_cmp self.now.clients call }
    {
        match self.clients.get(&call) {
            None => None,
            Some(client) => Some(*client),
        }
    }

    /// The client of an open call, and whether it was taken.
    fn open_call(&self, call: u64) -> Option<(u64, bool)>
        ensures { result ≡ open_by (get nat_cmp self.now.calls) call
            (get nat_cmp self.now.clients call) }
    {
        match self.client_of(call) {
            None => None,
            Some(client) => {
                match self.calls.get(&client) {
                    None => None,
                    Some(open) => {
                        if open.call == call {
                            Some((client, open.taken))
                        } else {
                            None
                        }
                    }
                }
            }
        }
    }

    /// Records an offer, if it has the next number and its client has no open call; otherwise the
    /// answer is false.
    fn offer(&mut self, call: u64, client: u64) -> Result<bool, AllocError>
        ensures told { (said : List Word) → HasHeard said (kept_in self.old) →
            IfOk result (Notes said (Saying.Offers call client) (kept_in self.new)) }
        ensures same { IsRest self.old self.new }
    {
        if call == 0 || call - 1 != self.offered {
            return Ok(false);
        }
        if self.calls.contains_key(&client) {
            return Ok(false);
        }
        self.offered = call;
        self.clients.insert(call, client)?;
        self.calls.insert(client, Open { call, taken: false })?;
        Ok(true)
    }

    /// Records that a call is taken, if it is open and was not taken.
    fn take(&mut self, call: u64) -> Result<bool, AllocError>
        ensures told { (said : List Word) → HasHeard said (kept_in self.old) →
            IfOk result (Notes said (Saying.Takes call) (kept_in self.new)) }
        ensures same { IsRest self.old self.new }
    {
        match self.open_call(call) {
            None => Ok(false),
            Some((client, taken)) => {
                if taken {
                    return Ok(false);
                }
                self.calls.insert(client, Open { call, taken: true })?;
                Ok(true)
            }
        }
    }

    /// Records that a call is closed, if it is open. An answer needs a call that was taken.
    fn close(&mut self, call: u64, answer: bool) -> bool
        ensures told { (said : List Word) → HasHeard said (kept_in self.old) →
            Notes said (Saying.Closes call answer) (kept_in self.new) result }
        ensures same { IsRest self.old self.new }
    {
        match self.open_call(call) {
            Some((client, taken)) => {
                if answer && !taken {
                    return false;
                }
                self.clients.remove(&call);
                self.calls.remove(&client);
                true
            }
            None => false,
        }
    }

    /// Whether the leases of a call may be used, which is if it is open and taken.
    fn may_borrow(&self, call: u64) -> bool
        ensures { (said : List Word) → HasHeard said (kept_in self.now) →
            Notes said (Saying.Borrows call) (kept_in self.now) result }
    {
        match self.open_call(call) {
            Some((_, taken)) => taken,
            None => false,
        }
    }

    /// Records what a line says of calls, if that is good.
    fn hear(&mut self, saying: Saying) -> Result<bool, AllocError>
        ensures told { (said : List Word) → HasHeard said (kept_in self.old) →
            IfOk result (Notes said saying (kept_in self.new)) }
        ensures same { IsRest self.old self.new }
    {
        match saying {
            Saying::Offers(call, client) => self.offer(call, client),
            Saying::Takes(call) => self.take(call),
            Saying::Closes(call, answer) => Ok(self.close(call, answer)),
            Saying::Borrows(call) => Ok(self.may_borrow(call)),
            Saying::Nothing => Ok(true),
        }
    }

    /// Whether a task's wait agrees with its open call.
    fn is_waiting(&self, task: u64, wait: FinalWait) -> bool
        ensures { result ≡ waits_as (get nat_cmp self.now.calls task) wait }
    {
        match self.calls.get(&task) {
            None => {
                match wait {
                    FinalWait::Other => true,
                    FinalWait::Offered(_) | FinalWait::Taken(_) => false,
                }
            }
            Some(open) => {
                match wait {
                    FinalWait::Offered(call) => open.call == call && !open.taken,
                    FinalWait::Taken(call) => open.call == call && open.taken,
                    FinalWait::Other => false,
                }
            }
        }
    }

    /// Records a line of a turn, if it is good.
    fn tell(&mut self, turn: u64, saying: Saying) -> Result<bool, AllocError>
        ensures { (lines : List Said) → IsKept lines self.old →
            IfOk result (Adds lines (TraceLine.Tells turn saying) self.new) }
    {
        if self.ended {
            return Ok(false);
        }
        if turn < self.turn {
            return Ok(false);
        }
        self.turn = turn;
        self.hear(saying)
    }

    /// Records the line that ends the turns, if none has come.
    fn end(&mut self) -> bool
        ensures { (lines : List Said) → IsKept lines self.old →
            Adds lines TraceLine.Ends self.new result }
    {
        if self.ended {
            return false;
        }
        self.ended = true;
        true
    }

    /// Whether the line of a task is good: it comes after the end of the turns, and the task waits
    /// as the lines of the turns say.
    fn may_wait(&self, task: u64, wait: FinalWait) -> bool
        ensures { (lines : List Said) → IsKept lines self.now →
            Adds lines (TraceLine.Waits task wait) self.now result }
    {
        if self.ended {
            self.is_waiting(task, wait)
        } else {
            false
        }
    }

    /// Whether a line that shows registers or memory is good: it comes after the end of the turns.
    fn may_show(&self) -> bool
        ensures { (lines : List Said) → IsKept lines self.now →
            Adds lines TraceLine.Shows self.now result }
    {
        self.ended
    }

    /// Records a line, if it is good after the lines before it.
    pub(crate) fn add(&mut self, line: TraceLine) -> Result<bool, AllocError>
        ensures { (lines : List Said) → IsKept lines self.old →
            IfOk result (Adds lines line self.new) }
    {
        match line {
            TraceLine::Tells(turn, saying) => self.tell(turn, saying),
            TraceLine::Ends => Ok(self.end()),
            TraceLine::Waits(task, wait) => Ok(self.may_wait(task, wait)),
            TraceLine::Shows => Ok(self.may_show()),
            TraceLine::Strange => Ok(false),
        }
    }
}
