// Sessions: readers, writers and flushes that fail, or do little at a time, and refused growths. All else is rows.
mod fakes;
mod faults;
mod growths;
