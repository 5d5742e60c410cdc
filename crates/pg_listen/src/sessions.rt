//! Who began the transactions that are open, tenant by tenant.
ghost use Rattle.std.specs.Prelude.{◌≡◌};
ghost use Rattle.pg_listen.specs.Sessions.{session_after, session_left};

use std::alloc::{AllocError, Global};

/// The transaction of one tenant.
#[derive(Clone, Copy)]
pub(crate) struct Session {
    /// The client whose request began what is open.
    begun: Option<u64>,
    /// That client is gone.
    is_left: bool,
}

const NONE: Session = Session {
    begun: None,
    is_left: false,
};

const LEFT: Session = Session {
    begun: None,
    is_left: true,
};

impl Session {
    /// A request of the client was done, and a transaction is open now or none is.
    fn after(client: u64, is_open: bool) -> Session
        ensures { result ≡ session_after client is_open }
    {
        let begun = if is_open { Some(client) } else { None };
        Session {
            begun,
            is_left: false,
        }
    }

    /// The client is gone.
    fn left(self, client: u64) -> Session
        ensures { result ≡ session_left client self }
    {
        match self.begun {
            Some(begun) if begun == client => Session {
                begun: self.begun,
                is_left: true,
            },
            _ => self,
        }
    }
}

/// The transactions of all tenants.
#[derive(Drop)]
pub(crate) struct Sessions {
    /// By the place of the tenant; behind them none was begun.
    of: Vec<Session>,
    /// One that is left may be there, and it may be tried to roll it back.
    is_due: bool,
}

impl Sessions {
    pub(crate) fn new(alloc: Global) -> Sessions {
        Sessions {
            of: Vec::new(alloc),
            is_due: false,
        }
    }

    /// What is open at so many places was begun by nobody who is there.
    pub(crate) fn leave_first(&mut self, places: usize) -> Result<(), AllocError> {
        for _left in self.of.len()..places {
            self.of.push(LEFT)?;
            self.is_due = true;
        }
        Ok(())
    }

    /// A request of the client was done by the tenant at this place, of which a transaction is open now or none is.
    pub(crate) fn note(
        &mut self,
        place: usize,
        client: u64,
        is_open: bool,
    ) -> Result<(), AllocError> {
        if is_open {
            for _made in self.of.len()..place.saturating_add(1) {
                self.of.push(NONE)?;
            }
        }
        if let Some(session) = self.of.get_mut(place) {
            *session = Session::after(client, is_open);
        }
        Ok(())
    }

    /// The client is gone.
    pub(crate) fn leave(&mut self, client: u64) {
        for session in self.of.iter_mut() {
            *session = session.left(client);
            if session.is_left {
                self.is_due = true;
            }
        }
    }

    /// Whether one that is left may be there.
    pub(crate) fn is_due(&self) -> bool {
        self.is_due
    }

    /// The place of a tenant whose transaction is left.
    pub(crate) fn next_left(&mut self) -> Option<usize> {
        if !self.is_due {
            return None;
        }
        for (place, session) in self.of.iter().enumerate() {
            if session.is_left {
                return Some(place);
            }
        }
        self.is_due = false;
        None
    }

    /// It was tried to roll a transaction back that was left, and it is open still or isn't.
    pub(crate) fn note_tried(&mut self, place: usize, is_open: bool) {
        if is_open {
            self.is_due = false;
        } else if let Some(session) = self.of.get_mut(place) {
            *session = NONE;
        }
    }

    /// What couldn't be rolled back may be tried again.
    pub(crate) fn try_again(&mut self) {
        self.is_due = true;
    }
}
