//! Run texts, or what follows the beginning of one, each with the status and what is written.
//!
//! A row is `TEXT => STATUS` and the lines that are written, and a line `;` stands between rows; each list is one text, since
//! the check reads a list of rows entry by entry.

/// Two rules over two roles without order, and two users with the administrative role.
pub const HEAD: &str =
    "run 1\nrole adm\nrole c\nassign adm [c,c] not adm\nrevoke adm [adm,adm]\nuser adm\nuser adm\n";

/// Roles one above another, numbered from above; rules by two administrative roles, one above the other; five users.
pub const LADDER: &str = r#"run 1
role high
role mid
role low
role boss
role aide
role apex
edge apex high
edge high mid
edge mid low
edge boss aide
assign boss [mid,high] not low
assign aide [low,low] mid and not high
assign aide [mid,mid] high
revoke boss [high,high]
revoke aide [low,high)
revoke boss [aide,boss]
user boss aide
user aide
user low mid high
user low mid
user apex low
"#;

/// Behind `HEAD`: acts and goals.
pub const ACTS: &str = r#"act weak 1 0 adm
act assign 1 0 c
goal c
end
 => 0
done
user 0 c
user 1 adm
goal 0 0
end
;
act weak 1 0 adm
act assign 1 0 c
goal any
goal c
end
 => 0
done
user 0 c
user 1 adm
goal 0 1
goal 1 0
end
;
act weak 0 1 adm
act weak 0 1 adm
goal not adm
end
 => 0
done
user 0 adm
user 1
goal 0 1
end
;
act weak 1 0 adm
goal c
end
 => 21
unmet
user 0
user 1 adm
end
;
goal any
goal any
goal any
end
 => 21
unmet
user 0 adm
user 1 adm
end
;
act assign 1 0 c
act weak 1 0 adm
goal c
end
 => 21
stopped act 0 NoCondition c rule 0
;
act weak 5 0 adm
goal adm
end
 => 21
stopped act 0 NoUser admin 5
;
act assign 0 5 c
goal adm
end
 => 21
stopped act 0 NoUser target 5
;
act weak 0 0 adm
act strong 4294967295 2 c
goal adm
end
 => 21
stopped act 1 NoUser admin 4294967295
;
act weak 0 1 c
goal adm
end
 => 21
stopped act 0 NoRange c
;
act assign 0 1 adm
goal adm
end
 => 21
stopped act 0 NoRange adm
;
act weak 0 1 adm
act weak 1 0 adm
goal adm
end
 => 21
stopped act 1 NoAdmin adm rule 0
;
act weak 0 0 adm
act assign 0 0 c
goal c
end
 => 21
stopped act 1 NoAdmin c rule 0
"#;

/// Behind `LADDER`: acts and goals.
pub const CLIMBS: &str = r#"act strong 0 2 low
goal boss
end
 => 0
done
user 0 boss aide
user 1 aide
user 2
user 3 mid low
user 4 low apex
goal 0 0
end
;
act weak 1 2 mid
act weak 1 2 low
goal high and low
end
 => 0
done
user 0 boss aide
user 1 aide
user 2 high
user 3 mid low
user 4 low apex
goal 0 2
end
;
act strong 1 3 low
act strong 1 2 low
goal boss
end
 => 21
stopped act 1 NoAdmin high rule 0
;
act strong 3 3 low
goal boss
end
 => 21
stopped act 0 NoAdmin mid rule 1
;
act strong 3 1 high
goal boss
end
 => 21
stopped act 0 NoAdmin high rule 0
;
act strong 0 4 low
goal boss
end
 => 21
stopped act 0 NoRange apex
;
act strong 0 0 aide
goal boss
end
 => 21
stopped act 0 NoAdmin aide rule 2
;
act assign 3 1 low
goal boss
end
 => 21
stopped act 0 NoAdmin low rule 1
;
act weak 0 4 low
act assign 1 4 low
goal boss
end
 => 21
stopped act 1 NoCondition low rule 1
;
act assign 0 3 mid
goal boss
end
 => 21
stopped act 0 NoCondition mid rule 0
;
act assign 1 3 mid
goal boss
end
 => 21
stopped act 0 NoCondition mid rule 2
"#;

/// Behind `HEAD`: faults.
pub const FAULTS: &str = r#"role d
goal c
end
 => 3
malformed r.txt: BadLine 8
;
act take 0 1 c
goal c
end
 => 3
malformed r.txt: BadLine 8
;
act weak 0 01 c
goal c
end
 => 3
malformed r.txt: BadLine 8
;
end
 => 3
malformed r.txt: BadLine 8
;
goal c
end
end
 => 3
malformed r.txt: BadLine 10
;
goal c
goal c
goal c
goal c
goal c
goal c
goal c
goal c
goal d
end
 => 3
malformed r.txt: TooMany 16
;
act assign 0 1 d
goal c
end
 => 3
malformed r.txt: UnknownRole 8
;
user adm d
goal c
end
 => 3
malformed r.txt: UnknownRole 8
;
goal c or
end
 => 3
malformed r.txt: Cond 8 Unexpected 4
;
goal not not c
end
 => 3
malformed r.txt: Cond 8 Unexpected 4
;
goal c or é
end
 => 3
malformed r.txt: Cond 8 Unexpected 5
;
goal c or d
role d
end
 => 3
malformed r.txt: Cond 8 UnknownRole 5
;
act weak 1 0 adm
act assign 1 0 c
goal c
 => 3
malformed r.txt: Unended
;
goal c
end => 3
malformed r.txt: Unended
"#;

/// Whole texts.
pub const WHOLE: &str = r#" => 3
malformed r.txt: NoRoles
;
run 1
end
 => 3
malformed r.txt: NoRoles
;
run 2
role a
goal a
end
 => 3
malformed r.txt: BadLine 1
;
run 1
role a
role not
user b
 => 3
malformed r.txt: BadName 1
;
run 1
role a
role b
role a
user c
 => 3
malformed r.txt: SameName 0 2
;
run 1
role a
role b
edge a b
edge b a
user c
 => 3
malformed r.txt: Cycle 1
;
run 1
role a
edge a a
goal a
end
 => 3
malformed r.txt: Cycle 0
;
run 1
role a
edge a b
 => 3
malformed r.txt: UnknownRole 3
;
run 1
role a
assign a [b,a] (
 => 3
malformed r.txt: UnknownRole 3
;
run 1
role a
assign a [a,a] any or
 => 3
malformed r.txt: Cond 3 Unexpected 6
;
run 1
role a
assign a [a,a] (a or b
 => 3
malformed r.txt: Cond 3 UnknownRole 6
;
run 1
role a
role b
role c
assign a [c,c] (a or b or c) and (a or b or c) and (a or b or c) and (a or b or c) and (a or b or c) and (a or b or c) and (a or b or c)
user a
act assign 0 0 c
goal (a or b or c) and (a or b or c) and (a or b or c) and (a or b or c) and (a or b or c) and (a or b or c) and (a or b or c)
end
 => 0
done
user 0 a c
goal 0 0
end
"#;
