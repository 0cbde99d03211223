// Calls that make tables, move tablets and split them.
ghost use Rattle.std.specs.Prelude.{◌≡◌, ◌≤◌, [], IfOk, IfErr};
ghost use Rattle.rk_cluster.specs.Codes.{migrate_code, split_code, table_code};
ghost use Rattle.rk_cluster.specs.Effects.{EndsIn, IsCarriedOut};
ghost use Rattle.rk_cluster.specs.Faults.{CountsGoOn};
ghost use Rattle.rk_cluster.specs.Makes.{migrate_makes, split_makes, table_makes};
ghost use Rattle.rk_cluster.specs.Masters.{backups_of};

use crate::admissions::{admit_migration, admit_split, admit_table};
use crate::cluster::{Cluster, nothing_said};
use crate::error::ClusterError;
use crate::steps::{act_all, in_all_lanes, in_lanes};
use rk_outside::Replica;
use rk_types::{Range, Said};
use rk_world::Event;

impl<R: Replica + Drop> Cluster<R> {
    /// A table is made with one tablet, which has all its hashes and which a master owns, in each lane. `TooLate` comes if a
    /// client has called, else `Taken` if the table is there, `Unknown` if the master is not, `Crashed` if it has crashed, and
    /// `Limit` if there are eight tables or sixteen tablets. A step for each client and for each two rows, and what the event
    /// takes in each lane.
    pub fn add_table(&mut self, table: u64, master: u8) -> Result<Vec<Said>, ClusterError>
        requires { 1 ≤ table }
        ensures ok { IfOk result (λ said. IsCarriedOut R.segments self.old self.new
            (λ cluster. table_code cluster table master) (λ cluster. table_makes cluster table master) said.items) }
        ensures err { IfErr result (EndsIn R.segments self.old self.new (λ cluster. table_code cluster table master)
            (λ cluster. table_makes cluster table master)) }
        ensures backups { backups_of self.new ≡ backups_of self.old }
        ensures counts { CountsGoOn R.faults [] self.old self.new }
    {
        let alloc = self.alloc();
        let tablet = admit_table(&self.lanes, &self.sessions, self.masters, table, master)?;
        let range = Range {
            table,
            first: 0,
            last: u64::MAX,
        };
        let deeds = in_all_lanes(Event::AddTablet {
            tablet,
            range,
            master,
        });
        act_all(&mut self.lanes, self.masters, &deeds)?;
        Ok(nothing_said(alloc))
    }

    /// A tablet begins to move to a master, in each lane where another master owns it. `Unknown` comes if the tablet or the
    /// master is not there, else `NotOwned` if the tablet moves or is rebuilt in some lane, `OwnsAll` if the master owns it in
    /// every lane, and `Crashed` if the master has crashed, or an owner in one of those lanes. A step for each row of each
    /// lane, and what the event takes in those lanes.
    pub fn migrate(&mut self, tablet: u32, to: u8) -> Result<Vec<Said>, ClusterError>
        ensures ok { IfOk result (λ said. IsCarriedOut R.segments self.old self.new
            (λ cluster. migrate_code cluster tablet to) (λ cluster. migrate_makes cluster tablet to) said.items) }
        ensures err { IfErr result (EndsIn R.segments self.old self.new (λ cluster. migrate_code cluster tablet to)
            (λ cluster. migrate_makes cluster tablet to)) }
        ensures backups { backups_of self.new ≡ backups_of self.old }
        ensures counts { CountsGoOn R.faults [] self.old self.new }
    {
        let alloc = self.alloc();
        let concerned = admit_migration(alloc, &self.lanes, self.masters, tablet, to)?;
        let deeds = in_lanes(alloc, &concerned, Event::Migrate { tablet, to })?;
        act_all(&mut self.lanes, self.masters, &deeds)?;
        Ok(nothing_said(alloc))
    }

    /// A tablet is split at a hash, in each lane: the hashes from there on become a tablet of the next number. `Unknown`
    /// comes if the tablet is not there, else `NotOwned` if it moves or is rebuilt in some lane, `Crashed` if an owner of it
    /// has crashed, `Limit` if there are sixteen tablets, and `BadSplit` if a part would have no hash. A step for each row of
    /// each lane, and what the event takes in each lane.
    pub fn split(&mut self, tablet: u32, at: u64) -> Result<Vec<Said>, ClusterError>
        ensures ok { IfOk result (λ said. IsCarriedOut R.segments self.old self.new
            (λ cluster. split_code cluster tablet at) (λ cluster. split_makes cluster tablet at) said.items) }
        ensures err { IfErr result (EndsIn R.segments self.old self.new (λ cluster. split_code cluster tablet at)
            (λ cluster. split_makes cluster tablet at)) }
        ensures backups { backups_of self.new ≡ backups_of self.old }
        ensures counts { CountsGoOn R.faults [] self.old self.new }
    {
        let alloc = self.alloc();
        let new = admit_split(&self.lanes, tablet, at)?;
        let deeds = in_all_lanes(Event::Split { tablet, at, new });
        act_all(&mut self.lanes, self.masters, &deeds)?;
        Ok(nothing_said(alloc))
    }
}
