//! The program over objects in memory, and over stores in files.

mod faults;
mod grown;
mod large;
mod migrated;
mod reads;
mod rows;
mod sizes;
mod store;
mod store_data;
mod store_files;
mod surely;
mod texts;
