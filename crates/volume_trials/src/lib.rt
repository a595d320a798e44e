//! Tests of volumes. Volumes, their files and sections, how they are built and what is found in them are tested byte by byte. The texts of volumes are tested
//! row by row: expressions as GenDepex of EDK2 spells them, what would make one hold, the lines of actions, whole texts with their scripts, and the texts that are printed of volumes.
#![tactic(auto)]

#[cfg(test)]
mod action_lines;
#[cfg(test)]
mod board;
#[cfg(test)]
mod building;
#[cfg(test)]
mod catalogues;
#[cfg(test)]
mod changes;
#[cfg(test)]
mod expressions;
#[cfg(test)]
mod gendepex;
#[cfg(test)]
mod images;
#[cfg(test)]
mod parts;
#[cfg(test)]
mod printed_volumes;
#[cfg(test)]
mod sections;
#[cfg(test)]
mod titles;
#[cfg(test)]
mod volume_texts;
#[cfg(test)]
mod volumes;
