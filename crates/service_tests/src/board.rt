// A board: by calls, with floors, with refused growths, and with readers in threads of their own.
mod calls;
mod groups;
mod growths;
mod retired;
mod rows;
mod threads;
