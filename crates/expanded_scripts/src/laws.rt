//! What the grammar of expanded command scripts says as a whole.

ghost use Rattle.std.specs.Prelude.{◌≡◌, ℕ, List};
ghost use Rattle.expanded_scripts.specs.Template.{IsTemplate};
ghost use Rattle.expanded_scripts.specs.Refused.{IsRefused};
ghost use Rattle.expanded_scripts.specs.declared.reading.TemplateErr.{TemplateErr};
ghost use Rattle.expanded_scripts.specs.declared.reading.TemplateErr.TheVariants as template_err;

/// Octets are one script at most, or are refused for one reason at most, and not both.
pub fn one_reading()
    ensures one_script { (octets : List ℕ) (commands others : List (List ℕ)) → IsTemplate octets commands → IsTemplate octets others → commands ≡ others }
    ensures one_refusal { (octets : List ℕ) (error other : TemplateErr) → IsRefused octets error → IsRefused octets other → (error ≡ template_err.Memory → ⊥) → (other ≡ template_err.Memory → ⊥) → error ≡ other }
    ensures apart { (octets : List ℕ) (commands : List (List ℕ)) (error : TemplateErr) → IsTemplate octets commands → IsRefused octets error → error ≡ template_err.Memory }
{}
