ghost use Rattle.std.specs.Prelude.{◌≡◌, ◌≤◌, true, None, length, slice_get, Some};
ghost use Rattle.row_versions.specs.History.{newest, rows_of};

use crate::event::Event;
use anyhow::{Result, bail};
use row_versions::{Change, VersionId, Versions, latest_show, latest_stays};
use std::alloc::Global;
use std::marker::Model;

/// Versions, with the newest commit at which something was done.
#[derive(Drop)]
pub(crate) struct Played {
    versions: Versions,
    now: u64,
}

impl Model for Played {
    ghost use Rattle.std.specs.Prelude.{ℕ};
    ghost use Rattle.row_versions.specs.Order.{IsLatest};
    ghost use Rattle.row_versions.specs.History.{History};

    ghost Value = { History × ℕ };

    ghost view = { λ p. (p.versions, p.now) };

    ghost invariant = { λ p. IsLatest p.now p.versions.versions };
}

impl Played {
    pub(crate) fn new(alloc: Global) -> Played {
        latest_stays();
        Played {
            versions: Versions::new(alloc),
            now: 0,
        }
    }

    pub(crate) fn now(&self) -> u64 {
        self.now
    }

    pub(crate) fn versions(&self) -> &Versions {
        &self.versions
    }

    pub(crate) fn step(&mut self, event: Event) -> Result<()> {
        match event {
            Event::Append { row, commit } => self.append(row, commit),
            Event::End { version, commit } => self.end(version, commit),
            Event::Empty { version, horizon } => self.empty(version, horizon),
        }
    }

    pub(crate) fn append(&mut self, row: u32, commit: u64) -> Result<()> {
        latest_stays();
        if commit < self.now || !is_free(&self.versions, row) {
            bail!("row {row} cannot have a version");
        }
        match self.versions.append(row, commit) {
            Ok(_id) => {
                self.now = commit;
                Ok(())
            }
            Err(_fault) => bail!("no room"),
        }
    }

    pub(crate) fn end(&mut self, version: VersionId, commit: u64) -> Result<()> {
        latest_stays();
        let len = self.versions.len();
        let end = self.versions.end_of(version);
        if version.0 >= len || end.is_some() || commit < self.now {
            bail!("a version cannot end");
        }
        self.versions.end_at(version, commit);
        self.now = commit;
        Ok(())
    }

    pub(crate) fn empty(&mut self, version: VersionId, horizon: u64) -> Result<()> {
        latest_stays();
        let Some(end) = self.versions.end_of(version) else {
            bail!("a version has no end");
        };
        if horizon < end {
            bail!("a version may still be seen");
        }
        self.versions.empty_old(version, horizon);
        Ok(())
    }

    /// Takes the newest commit back. False where there is none above the horizon.
    pub(crate) fn back(&mut self) -> bool {
        latest_stays();
        if self.versions.horizon() < self.now {
            self.versions.roll_back(self.now);
            self.now -= 1;
            true
        } else {
            false
        }
    }

    /// What changed from the horizon on.
    pub(crate) fn changes(&self) -> Result<Vec<Change>> {
        let horizon = self.versions.horizon();
        if horizon > self.now {
            bail!("the horizon lies ahead");
        }
        Ok(self.versions.changes(horizon, self.now)?)
    }
}

// Whether a row is the next one, or one that has no version without an end.
fn is_free(versions: &Versions, row: u32) -> bool
    ensures none { result ≡ true → newest row versions.now.versions ≡ None }
    ensures within { result ≡ true → row ≤ rows_of versions.now.versions }
{
    latest_show();
    let rows = versions.rows();
    if row < rows {
        versions.newest(row).is_none()
    } else {
        row == rows
    }
}
