// What the definitions of lines and components mean, said in the words of the files themselves: each law is a theorem over every text.
#![tactic(auto)]

ghost use Rattle.file_laws.specs.Form.{FormOfALine};
ghost use Rattle.file_laws.specs.Physical.{LineEnds};
ghost use Rattle.file_laws.specs.Texts.{PiecesOfAText, SameText};
ghost use Rattle.file_laws.specs.Tree.{Components};
ghost use Rattle.file_laws.specs.Unfolded.{Unfolding};

// Two texts are the same where they are equal in capital letters.
#[tactic(auto, using(crate::proofs::TextsOf::same_law))]
pub fn same_text()
    ensures { SameText }
{}

// The pieces of a text, with the separators between them, are the text.
#[tactic(auto, using(crate::proofs::TextsOf::pieces_law))]
pub fn pieces_of_a_text()
    ensures { PiecesOfAText }
{}

// A file whose lines end well is its physical lines, each followed by CR LF.
#[tactic(auto, using(crate::proofs::PhysicalOf::line_ends))]
pub fn line_ends()
    ensures { LineEnds }
{}

// A file's logical lines are its physical lines put together at the folds.
#[tactic(auto, using(crate::proofs::UnfoldedOf::unfolding_law))]
pub fn unfolding()
    ensures { Unfolding }
{}

// A well-formed line is a name, parameters and a value, and these are the parts that are read of it.
#[tactic(auto, using(crate::proofs::FormOf::form))]
pub fn form_of_a_line()
    ensures { FormOfALine }
{}

// A calendar is one component around all lines, and its events are the VEVENT components directly inside it, each with its own lines.
#[tactic(auto, using(crate::proofs::TreeOf::components_law))]
pub fn components()
    ensures { Components }
{}
