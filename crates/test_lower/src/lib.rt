//! Each public function of the lower crates once, what the worked rows say of contents, victims and
//! plans, area pages that are written in part, the newest pages of keys, RPMB regions of different
//! sizes, what queries and units tell, lists of UNMAP, pages of zeros, and pages of both versions.
//! Expected bytes come from the device's formats and from the standards, never from the program's
//! own output.
#![tactic(auto)]

#[cfg(test)]
mod cache_rests;
#[cfg(test)]
mod crates_once;
#[cfg(test)]
mod faulty_die;
#[cfg(test)]
mod frames;
#[cfg(test)]
mod hostile_frames;
#[cfg(test)]
mod last_pages;
#[cfg(test)]
mod macs;
#[cfg(test)]
mod page_contents;
#[cfg(test)]
mod page_versions;
#[cfg(test)]
mod place_searches;
#[cfg(test)]
mod plain_rows;
#[cfg(test)]
mod query_rows;
#[cfg(test)]
mod regions;
#[cfg(test)]
mod rpmb_rows;
#[cfg(test)]
mod scans;
#[cfg(test)]
mod scans_by_workers;
#[cfg(test)]
mod settings_pages;
#[cfg(test)]
mod unit_rows;
#[cfg(test)]
mod unmap_lists;
#[cfg(test)]
mod victim_searches;
#[cfg(test)]
mod victims;
#[cfg(test)]
mod zero_seals;
