// What no clause says of ring_records, and that its definitions say what is meant.
mod growths;
mod records;
mod snapshots;
mod texts;
mod values;
mod worked;
