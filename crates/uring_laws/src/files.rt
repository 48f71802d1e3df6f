//! What operations gave, and the files that they left: laws of the definitions alone.
ghost use Rattle.uring_entry.specs.Setup.{Setup};
ghost use Rattle.uring_laws.specs.Finishes.{LawfulByOperations, FilesByOperations, FileByItsEnds, FileByItsOperations, PlacesJoin, FilesByPlace};

/// A history is lawful exactly if it is lawful apart from what operations gave, and each operation that it carried out ended as the files before it call for. Its files are those that these operations left.
#[tactic(auto, using(crate::proofs::FileLaws::lawful_by_operations, crate::proofs::FileLaws::files_by_operations))]
pub fn lawful_by_operations()
    ensures lawful { (g : Setup) → LawfulByOperations g }
    ensures files { (g : Setup) → FilesByOperations g }
{}

/// The file of a descriptor is made by the ends on it alone, in their order.
#[tactic(auto, using(crate::proofs::FilesApart::after_by_own, crate::proofs::FilesApart::left_by_own))]
pub fn file_is_made_by_its_own_ends()
    ensures ends { FileByItsEnds }
    ensures operations { FileByItsOperations }
{}

/// A history that is lawful apart from what operations gave is lawful, if its operations were dealt out by their file and each place carried out its own on files that it alone has; and each file is that of its place.
pub fn places_join()
    ensures lawful { (g : Setup) → PlacesJoin g }
    ensures files { (g : Setup) → FilesByPlace g }
{}
