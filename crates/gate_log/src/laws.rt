//! What holds of each log.

ghost use Rattle.std.specs.Prelude.{◌≡◌, ℕ, List, length};
ghost use Rattle.gate_log.specs.Log.{IsLogOf};
ghost use Rattle.gate_log.specs.Reading.{OpensTo};
ghost use Rattle.gate_log.specs.Spelled.{AreBatches, parts_in_all};
ghost use Rattle.gate_log.specs.SpelledBack.{AreOctets, IsLogWith};

/// Octets that are spelled as a log of these batches open to their parts, whatever lies behind the gate that ends it.
pub fn spelled_logs_open()
    ensures { (head : List ℕ) (batches : List (List (List ℕ))) (octets : List ℕ) → length head ≡ 9 → AreBatches batches → IsLogOf head batches octets → OpensTo head (parts_in_all batches) octets }
{}

/// Octets that open to parts are spelled as a log of batches with these parts, and of no others: what is read is what is
/// written.
pub fn opened_logs_are_spelled()
    ensures { (head : List ℕ) (parts : List (List ℕ)) (octets : List ℕ) → length head ≡ 9 → AreOctets octets → OpensTo head parts octets → IsLogWith head octets parts }
{}
