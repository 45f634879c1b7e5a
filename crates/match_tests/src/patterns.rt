//! Texts in each language, and which pattern they write.

use node_tree::{Kind, Lang};
use pattern_read::{PatternFault, read_pattern};
use std::test::Fail;

#[test]
fn reads_patterns(rt: HostRuntime) -> Result<(), Fail> {
    let rows = [
        (Lang::Json, "1", Ok(Kind::Number)),
        (Lang::Json, "$X", Ok(Kind::Meta)),
        (Lang::Json, "\"...\"", Ok(Kind::StrAny)),
        (Lang::Json, "<... $X ...>", Ok(Kind::Deep)),
        (Lang::Json, "[..., $...A]", Ok(Kind::Array)),
        (Lang::Json, "{$...A, \"k\": ...}", Ok(Kind::Object)),
        (Lang::Json, "", Err(PatternFault::NoPattern)),
        (Lang::Json, "[1,]", Err(PatternFault::NoPattern)),
        (Lang::Json, "...", Err(PatternFault::OnlyDots)),
        (Lang::Json, "$...A", Err(PatternFault::OnlyDots)),
        (Lang::Json, "{\"k\": $...A}", Err(PatternFault::DotsPlace)),
        (
            Lang::Json,
            "[<... $...A ...>]",
            Err(PatternFault::DotsPlace),
        ),
        (Lang::Regex, "1", Err(PatternFault::NoPattern)),
        (Lang::Python, "a", Ok(Kind::Name)),
        (Lang::Python, "$X + 1", Ok(Kind::Binary)),
        (Lang::Python, "f(..., $...A)", Ok(Kind::Call)),
        (Lang::Python, "[$...A]", Ok(Kind::ListLit)),
        (Lang::Python, "<... $X ...>", Ok(Kind::Deep)),
        (Lang::Python, "", Err(PatternFault::OnlyDots)),
        (Lang::Python, "f(", Err(PatternFault::NoPattern)),
        (Lang::Python, "x = 1", Ok(Kind::Block)),
        (Lang::Python, "a\nb", Ok(Kind::Block)),
        (Lang::Python, "a\n...", Ok(Kind::Block)),
        (Lang::Python, "if $X: ...", Ok(Kind::Block)),
        (Lang::Python, "...\n...", Err(PatternFault::OnlyDots)),
        (Lang::Python, "...", Err(PatternFault::OnlyDots)),
        (Lang::Python, "$...A", Err(PatternFault::OnlyDots)),
        (Lang::Python, "$...A + 1", Err(PatternFault::DotsPlace)),
        (Lang::C, "a", Ok(Kind::Name)),
        (Lang::C, "f(..., $...A)", Ok(Kind::Call)),
        (Lang::C, "(T)$X", Ok(Kind::Cast)),
        (Lang::C, "return $X;", Ok(Kind::Block)),
        (Lang::C, "int $F(...) { ... }", Ok(Kind::Block)),
        (Lang::C, "", Err(PatternFault::OnlyDots)),
        (Lang::C, "int main( {", Err(PatternFault::NoPattern)),
        (Lang::C, "...", Err(PatternFault::OnlyDots)),
        (Lang::C, "...; $...A;", Err(PatternFault::OnlyDots)),
        (Lang::C, "$...A + 1", Err(PatternFault::DotsPlace)),
    ];
    for (lang, text, wanted) in rows {
        let found = read_pattern(rt.alloc(), lang, text).map(|pattern| pattern.tree.kind);
        assert_eq!(rt; found, wanted, "{lang:?} {text}");
    }
    Ok(())
}
