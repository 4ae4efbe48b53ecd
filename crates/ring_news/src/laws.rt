// Laws of the definitions: public functions with an empty body, whose contracts say what follows from `specs/` alone.
ghost use Rattle.std.specs.Prelude.{◌≤◌, ℕ, List};
ghost use Rattle.std.specs.List.{count_by};
ghost use Rattle.ring_news.specs.declared.book.Book.{Book};
ghost use Rattle.ring_news.specs.Calls.{Call, all_news, is_failure_of};

/// Whatever a book is told, and however often it is asked: the failure of a node is told once at most.
pub fn failures_are_told_once()
    ensures once { (book : Book) (calls : List Call) (node : ℕ) → count_by (is_failure_of node) (all_news book calls) ≤ 1 }
{}
