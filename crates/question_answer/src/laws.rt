//! What the certificate of an outcome shows.

ghost use Rattle.std.specs.Prelude.{ℕ, ◌≡◌, length};
ghost use Rattle.role_order.specs.Graph.{AreEdges};
ghost use Rattle.arbac_policy.specs.Rules.{IsPolicy};
ghost use Rattle.cert_text.specs.Certificates.{Certificate};
ghost use Rattle.cert_check.specs.Asked.{Asked, HasProperty};
ghost use Rattle.question_answer.specs.Answers.{IsAnswerTo};

/// A question has one certificate at most for each limit, and it has the property that the checker asks of it.
pub fn answer_laws()
    ensures one { (asked : Asked) (limit : ℕ) (first second : Certificate) → IsAnswerTo asked limit first → IsAnswerTo asked limit second →
        first ≡ second }
    ensures has { (asked : Asked) → AreEdges (length asked.rules.order.names) asked.rules.order.edges → IsPolicy asked.rules →
        (limit : ℕ) (cert : Certificate) → IsAnswerTo asked limit cert → HasProperty asked cert }
{}
