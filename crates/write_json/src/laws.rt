//! A law of the JSON of answers.
ghost use Rattle.std.specs.Prelude.{◌≡◌};
ghost use Rattle.driver_assembly.specs.declared.rendered.Rendered.{Rendered};
ghost use Rattle.write_json.specs.AnswerData.{answer_data};

/// A law: answers of equal data are equal, so the data has all that an answer holds.
pub fn data_tells_answers_apart()
    ensures { (a b : Rendered) → answer_data a ≡ answer_data b → a ≡ b }
{}
