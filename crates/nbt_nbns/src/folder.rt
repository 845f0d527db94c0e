//! The folder that keeps a server's leases.

ghost use Rattle.std.specs.Prelude.{IfOk};
ghost use Rattle.nbt_nbns.specs.Folders.{IsOpenedWith};

use nbt_lease::Lease;
use nbt_name::Name;
use nbt_store::{Broken, Change, DiskStore, Header, Room, Store, Syncs, SystemDisk};
use std::alloc::Global;
use std::collections::VecDeque;
use std::marker::Model;
use std::rt::Files;
use std::{io, time};

/// A store in a folder of the system. What its files keep no contract can say: one sees what a call may have asked of them, by where the store goes
/// on behind it, and whether it is broken. That a sync was asked for one can't see, since it changes neither.
#[derive(Drop)]
pub struct FolderStore<'a, M: Files> {
    folder: &'a str,
    store: DiskStore<SystemDisk<'a, M>>,
}

impl<'a, M: Files> Model for FolderStore<'a, M> {
    ghost use Rattle.nbt_nbns.specs.Folders.{FolderValue, folder_value};

    ghost Value = { FolderValue };

    ghost view = { λ f. folder_value f.store };
}

impl<'a, M: Files + time::Clock> FolderStore<'a, M> {
    /// Opens the store of a folder with this header and these leases, as [`DiskStore::open`] does.
    pub fn open(
        disk: SystemDisk<'a, M>,
        alloc: Global,
        header: &Header,
        rows: &[(Name, Lease)],
    ) -> io::Result<FolderStore<'a, M>>
        ensures { IfOk result (IsOpenedWith header.now rows.now) }
    {
        let folder = disk.folder();
        let store = DiskStore::open(disk, alloc, header, rows)?;
        Ok(FolderStore { folder, store })
    }
}

impl<M: Files + time::Clock> Store for FolderStore<'_, M> {
    ghost use Rattle.nbt_nbns.specs.Folders.{FolderDoes};

    ghost does = { FolderDoes };

    fn append(&mut self, change: &Change) -> Result<(), Broken> {
        self.store.append(change)
    }

    fn sync(&mut self) -> Result<(), Broken> {
        self.store.sync()
    }

    fn begin_renewal(&mut self, header: &Header, changes: VecDeque<Change>) -> Result<(), Broken> {
        self.store.begin_renewal(header, changes)
    }

    fn go_on(&mut self) -> Result<bool, Broken> {
        self.store.go_on()
    }

    fn is_renewing(&self) -> bool {
        self.store.is_renewing()
    }

    fn is_long(&self) -> bool {
        self.store.is_long()
    }

    fn error(&self) -> Option<&io::Error> {
        self.store.error()
    }

    fn folder(&self) -> Option<&str> {
        Some(self.folder)
    }

    fn room(&self) -> Room {
        self.store.room()
    }

    fn can_renew(&self) -> bool {
        self.store.can_renew()
    }

    fn syncs(&self) -> Syncs {
        self.store.syncs()
    }
}
