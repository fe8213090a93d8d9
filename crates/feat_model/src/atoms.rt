//! Atoms by their numbers.

ghost use Rattle.std.specs.Prelude.{◌≡◌, ◌<◌, [], ◌∷◌, ◌++◌, length, unwrap_or, None, IfOk, IfSome, OnOk};
ghost use Rattle.feat_model.specs.Found.{number_of, with_atom, AreNumbered};

use expr_classes::Classes;
use feat_proof::NoMemory;
use mrs_arena::ExprId;
use std::alloc::Global;

/// The atoms that were found, in the order in which they came first, and the number of each class.
#[derive(Drop)]
pub(crate) struct Atoms {
    pub found: Vec<ExprId>,
    pub numbers: Vec<Option<u32>>,
}

impl Atoms {
    /// No atoms.
    pub fn new(alloc: Global, classes: &Classes) -> Result<Atoms, NoMemory>
        ensures found { IfOk result (λ atoms. atoms.found.items ≡ []) }
        ensures numbered { IfOk result (λ atoms. AreNumbered classes.now.classes classes.now.count atoms.found.items atoms.numbers.items) }
    {
        Ok(Atoms {
            found: Vec::new(alloc),
            numbers: vec![in alloc; None; classes.count()]?,
        })
    }

    /// The number of the atom that states the same fact.
    fn number_of(&self, classes: &Classes, e: ExprId) -> Option<u32>
        requires within { e.0 < length classes.now.classes }
        requires numbered { AreNumbered classes.now.classes classes.now.count self.now.found.items self.now.numbers.items }
        ensures number { result ≡ number_of classes.now.classes self.now.numbers.items e.0 }
        ensures below { IfSome result (λ n. n < length self.now.found.items) }
    {
        let class = classes.class(e)?;
        self.numbers[class]
    }

    /// Takes up an atom that states no fact of those that were found, and gives its number.
    fn take(&mut self, classes: &Classes, e: ExprId) -> Result<u32, NoMemory>
        requires within { e.0 < length classes.now.classes }
        requires numbered { AreNumbered classes.now.classes classes.now.count self.old.found.items self.old.numbers.items }
        requires few { length self.old.found.items < 4194304 }
        requires new { number_of classes.now.classes self.old.numbers.items e.0 ≡ None }
        ensures number { IfOk result (λ n. n ≡ length self.old.found.items) }
        ensures found { OnOk result (self.new.found.items ≡ self.old.found.items ++ e ∷ []) }
        ensures numbered { OnOk result (AreNumbered classes.now.classes classes.now.count self.new.found.items self.new.numbers.items) }
    {
        let number = self.found.len() as u32;
        self.found.push(e)?;
        if let Some(class) = classes.class(e) {
            self.numbers[class] = Some(number);
        }
        Ok(number)
    }

    /// The number of the atom, which is taken up unless one that states the same fact was found before.
    pub fn atom(&mut self, classes: &Classes, e: ExprId) -> Result<u32, NoMemory>
        requires within { e.0 < length classes.now.classes }
        requires numbered { AreNumbered classes.now.classes classes.now.count self.old.found.items self.old.numbers.items }
        requires few { length self.old.found.items < 4194304 }
        ensures number { IfOk result (λ n. n ≡ unwrap_or (number_of classes.now.classes self.old.numbers.items e.0) (length self.old.found.items)) }
        ensures found { OnOk result (self.new.found.items ≡ with_atom (number_of classes.now.classes self.old.numbers.items e.0) e self.old.found.items) }
        ensures numbered { OnOk result (AreNumbered classes.now.classes classes.now.count self.new.found.items self.new.numbers.items) }
        ensures below { IfOk result (λ n. n < 4194304) }
    {
        match self.number_of(classes, e) {
            Some(number) => Ok(number),
            None => self.take(classes, e),
        }
    }
}
