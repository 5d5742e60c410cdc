//! How many elements a row's paths make.
ghost use Rattle.std.specs.Prelude.{◌≡◌, ◌≤◌, ◌+◌, ◌++◌, ◌∷◌, [], Bool, List, OnOk, IfOk, flat_map, length, map};
ghost use Rattle.pg_meaning.specs.Names.{is_among};
ghost use Rattle.pg_meaning.specs.Patterns.{nodes_of};
ghost use Rattle.pg_meaning.specs.Tree.{NodePattern as Pattern};
ghost use Rattle.pg_meaning.specs.Updates.{count_new, count_nodes};
ghost use Rattle.pg_store.specs.Stores.{texts_of};
ghost use Rattle.pg_syntax_tree.specs.View.{node_view, path_view};
ghost use Rattle.pg_write_make.specs.Creations.{count_one};
ghost use Rattle.pg_write_make.specs.Lent.{paths_view};
ghost use Rattle.pg_write_make.specs.Makings.{patterns_view};

use pg_rows::Columns;
use pg_syntax_tree::{NodePattern, PathPattern};
use std::alloc::{AllocError, Global};

fn push_nodes<'a>(nodes: &mut Vec<&'a NodePattern>, path: &'a PathPattern) -> Result<(), AllocError>
    ensures { OnOk result (patterns_view nodes.new.items
        ≡ patterns_view nodes.old.items ++ nodes_of (path_view path.now)) }
{
    nodes.push(&path.first)?;
    for hop in &path.hops {
        nodes.push(&hop.1)?;
    }
    Ok(())
}

fn all_nodes<'a>(
    alloc: Global,
    paths: &'a [PathPattern],
) -> Result<Vec<&'a NodePattern>, AllocError>
    ensures { IfOk result
        (λ nodes. patterns_view nodes.items ≡ flat_map nodes_of (paths_view paths.now)) }
{
    let mut nodes = Vec::new(alloc);
    for path in paths {
        push_nodes(&mut nodes, path)?;
    }
    Ok(nodes)
}

fn is_among(texts: &Vec<&str>, name: &str) -> bool
    ensures { result ≡ is_among (texts_of texts.now.items) name.now }
{
    for text in texts {
        if name == *text {
            return true;
        }
    }
    false
}

#[tactic(auto, using(crate::proofs::CountLemmas::among_both, pg_match_bindings::proofs::Naming::stands))]
fn is_seen(names: &Columns, seen: &Vec<&str>, name: &str) -> bool
    ensures { result ≡ is_among (texts_of seen.now.items ++ names.now) name.now }
{
    is_among(seen, name) || names.find(name).is_some()
}

// Whether the pattern makes a node; its name is seen from then on.
#[tactic(auto, using(crate::proofs::CountLemmas::new_counts, crate::proofs::CountLemmas::seen_counts, crate::proofs::CountLemmas::nameless_counts))]
fn makes_node<'a>(
    names: &Columns,
    seen: &mut Vec<&'a str>,
    pattern: &'a NodePattern,
) -> Result<bool, AllocError>
    ensures { IfOk result (λ makes. (ns : List Pattern)
        → count_nodes (texts_of seen.old.items ++ names.now) (node_view pattern.now ∷ ns)
        ≡ count_one makes (count_nodes (texts_of seen.new.items ++ names.now) ns)) }
{
    let Some(name) = &pattern.variable else {
        return Ok(true);
    };
    let text = name.text.as_str();
    if is_seen(names, seen, text) {
        return Ok(false);
    }
    seen.push(text)?;
    Ok(true)
}

fn count_nodes(
    alloc: Global,
    names: &Columns,
    nodes: &Vec<&NodePattern>,
) -> Result<usize, AllocError>
    ensures count { IfOk result
        (λ count. count ≡ count_nodes names.now (patterns_view nodes.now.items)) }
    ensures few { IfOk result (λ count. count ≤ length nodes.now.items) }
{
    let mut seen = Vec::new(alloc);
    let mut count = 0;
    for node in nodes {
        if makes_node(names, &mut seen, node)? {
            count += 1;
        }
    }
    Ok(count)
}

/// How many elements a row's paths make, under names that are in scope.
pub fn count_new(alloc: Global, names: &Columns, paths: &[PathPattern]) -> Result<usize, AllocError>
    ensures { IfOk result (λ count. count ≡ count_new names.now (paths_view paths.now)) }
{
    let nodes = all_nodes(alloc, paths)?;
    let relationships = nodes.len() - paths.len();
    Ok(count_nodes(alloc, names, &nodes)? + relationships)
}
