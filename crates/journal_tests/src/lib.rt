//! The tests of the journal and of what stands on it: byte records in a file, changes as records, the entries that a
//! file stands for, and the house over a disk. All call public items alone.
#![tactic(auto)]

#[cfg(test)]
mod appends;
#[cfg(test)]
mod bad_records;
#[cfg(test)]
mod based_houses;
#[cfg(test)]
mod bases;
#[cfg(test)]
mod batches;
#[cfg(test)]
mod calls_together;
#[cfg(test)]
mod changed_bytes;
#[cfg(test)]
mod crashes;
#[cfg(test)]
mod cut_files;
#[cfg(test)]
mod disk_faults;
#[cfg(test)]
mod disks;
#[cfg(test)]
mod entries;
#[cfg(test)]
mod folded_houses;
#[cfg(test)]
mod folds;
#[cfg(test)]
mod fresh_journals;
#[cfg(test)]
mod house_lives;
#[cfg(test)]
mod houses;
#[cfg(test)]
mod lives;
#[cfg(test)]
mod offers;
#[cfg(test)]
mod openings;
#[cfg(test)]
mod pools;
#[cfg(test)]
mod posts;
#[cfg(test)]
mod records;
#[cfg(test)]
mod sessions;
#[cfg(test)]
mod system_files;
#[cfg(test)]
mod together;
#[cfg(test)]
mod traced_disk;
#[cfg(test)]
mod traced_journals;
#[cfg(test)]
mod walks;
