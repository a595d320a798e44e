//! Tests of the lowest crates, row by row: GUIDs and maps by GUID, files and sinks, real ones and those in memory, the texts and codes that people and files
//! write, and the answers of the tools that have crates of their own.
#![tactic(auto)]

#[cfg(test)]
mod base;
#[cfg(test)]
mod board;
#[cfg(test)]
mod devices;
#[cfg(test)]
mod expressions;
#[cfg(test)]
mod expressions_as_text;
#[cfg(test)]
mod guid_maps;
#[cfg(test)]
mod hob_rows;
#[cfg(test)]
mod map_commands;
#[cfg(test)]
mod map_faults;
#[cfg(test)]
mod memory_devices;
#[cfg(test)]
mod memory_map;
#[cfg(test)]
mod plans;
#[cfg(test)]
mod processors;
#[cfg(test)]
mod scripts;
#[cfg(test)]
mod scripts_as_text;
