// The month-end figures of the books in the files that the arguments name, given one after the other (document 02 (iv)).
#![tactic(auto)]

mod files;
mod lines;
mod sums;

ghost use Rattle.std.specs.Prelude.{◌≡◌, ◌-◌};
ghost use Rattle.month_end.specs.Program.{number_in};

use answer::Refusal;

// Nothing is printed before the last book is given, since with 73 one line stands alone; where a file cannot be read nothing is printed at all.
fn main(rt: HostRuntime) {
    let arguments = match files::arguments(&rt) {
        Ok(arguments) => arguments,
        Err(e) => return words::fail(&rt, "the names of the books", &e),
    };
    let books = names_in(arguments.len());
    let mut figures = month::empty();
    let mut refusals = [None; lines::KEPT];
    let mut refused: usize = 0;
    for given in 0..books {
        let mut book = [0u8; words::ROOM];
        let Some(size) = files::read(&rt, arguments[given + 1].as_str(), &mut book) else {
            return;
        };
        let added = month::add(figures, &book[..size]);
        let refusal = number_of(added.answer);
        if lines::PAIRS < added.figures.pairs {
            return lines::print_refused(&rt, refusal, given + 1);
        }
        figures = added.figures;
        refusals[lines::place_of(given)] = refusal;
        if refusal.is_some() {
            refused += 1;
        }
    }
    lines::print_books(&rt, &refusals, books);
    lines::print_figures(&rt, figures, books, refused);
}

// How many names there are among the arguments: the first argument is the program's own name.
fn names_in(arguments: usize) -> usize
    ensures { result ≡ arguments - 1 }
{
    arguments.saturating_sub(1)
}

// The number of the refusal that a book got.
fn number_of(answer: Result<(), Refusal>) -> Option<u8>
    ensures { result ≡ number_in answer }
{
    match answer {
        Ok(()) => None,
        Err(r) => Some(r.number),
    }
}
