// What holds of certificates that are written over: each law is the contract of a function.
ghost use Rattle.std.specs.Prelude.{◌≡◌, ◌<◌, ◌≤◌, ◌^◌, ℕ, List, Option, IsTrue, map, length};
ghost use Rattle.cat_scope.specs.Names.{AllHave};
ghost use Rattle.cat_guard.specs.declared.table.Table.{Table as TableSeen};
ghost use Rattle.cat_guard.specs.Trees.{Tree};
ghost use Rattle.cat_walk.specs.Sizes.{most_leaves};
ghost use Rattle.cat_cert.specs.declared.certificate.TheConstants.{MOST_LEAVES};
ghost use Rattle.cat_cert.specs.declared.certificate.Version.TheVariants.{Two};
ghost use Rattle.cat_cert.specs.declared.certificate.Certificate.{Certificate as CertificateSeen};
ghost use Rattle.cat_cert.specs.declared.refusal.CertRefusal.{CertRefusal as RefusalSeen};
ghost use Rattle.cat_cert.specs.declared.refusal.CertRefusal.TheVariants.{Memory};
ghost use Rattle.cat_cert.specs.Lines.{dues_of};
ghost use Rattle.cat_cert.specs.Certifiable.{shared_tree, AreCertifiable};
ghost use Rattle.cat_cert.specs.Texts.{certificate_text, names_are_lines};
ghost use Rattle.cat_cert.specs.Uncovered.{AllCovered};
ghost use Rattle.cat_cert.specs.Checked.{HasCause, IsChecked, IsCertified, text_over};

use crate::{
    read_texts_are_not_refused, read_trees_are_those_of_targets, shared_trees_are_certificates,
    texts_are_read_in_one_way, written_certificates_are_read,
};
use cat_walk::{cited_trees_are_whole, trees_split_as_they_are_written};

/// The most leaves by which code counts are those of the definitions.
pub fn limit_is_as_stated()
    ensures { MOST_LEAVES ≡ most_leaves }
{}

/// What is written over of a certificate whose leaves are covered is such a certificate again, where no name holds a
/// line
/// feed.
pub fn what_is_written_over_is_read_again()
    ensures { (tables : List TableSeen) (bytes : List ℕ) (c : CertificateSeen) → IsTrue (names_are_lines tables)
        → IsChecked tables bytes c → IsCertified tables (text_over tables c.trees) }
{
    read_trees_are_those_of_targets();
    shared_trees_are_certificates();
    written_certificates_are_read();
    cited_trees_are_whole();
    trees_split_as_they_are_written();
}

/// Whole trees whose leaves are covered are written as a certificate whose leaves are covered, where no name holds a
/// line
/// feed.
pub fn what_is_written_of_covered_trees_is_certified()
    ensures { (tables : List TableSeen) (found : List (Option Tree)) → IsTrue (names_are_lines tables)
        → AreCertifiable (dues_of tables) found → AllCovered tables found
        → IsCertified tables (certificate_text Two tables (map shared_tree found)) }
{
    shared_trees_are_certificates();
    written_certificates_are_read();
}

/// A certificate whose leaves are covered isn't refused, unless for want of memory, where its length and the numbers of
/// atoms are numbers that are written.
pub fn certified_texts_are_not_refused()
    ensures { (tables : List TableSeen) (bytes : List ℕ) (why : RefusalSeen)
        → AllHave (λ table. length table.atoms ≤ 2 ^ 64) tables → length bytes < 2 ^ 64 → IsCertified tables bytes
        → HasCause tables bytes why → why ≡ Memory }
{
    read_texts_are_not_refused();
    texts_are_read_in_one_way();
}
