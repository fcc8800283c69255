//! What marks tell of cover.

ghost use Rattle.std.specs.Prelude.{List};
ghost use Rattle.role_order.specs.Graph.{Graph};
ghost use Rattle.arbac_laws.specs.Needs.{Need, Covers};
ghost use Rattle.need_marks.specs.declared.marks.NeedMark.{NeedMark};
ghost use Rattle.need_marks.specs.declared.marks.NeedQuery.{NeedQuery};
ghost use Rattle.need_marks.specs.Marks.{IsNeedMark, IsNeedQuery, MayCover};

/// Where a requirement covers another, its mark fits the query of the other.
pub fn cover_marks()
    ensures { (order : Graph) (a b : List Need) (mark : NeedMark) (query : NeedQuery) → Covers a b →
        IsNeedMark order a mark → IsNeedQuery order b query → MayCover query mark }
{}
