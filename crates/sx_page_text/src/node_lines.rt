//! The lines of a b-tree page, one after the other.
ghost use Rattle.std.specs.Prelude.{◌+◌, ◌^◌, ◌<◌, length};
ghost use Rattle.sx_page_text.specs.Places.{numbered};

use crate::node_text::{NodeLine, put_block_line, put_cell_line, put_header_line, put_right_line};
use std::alloc::AllocError;
use sx_lines::Lines;
use sx_node::{Freeblocks, Node};

/// The lines of a b-tree page that are still to come.
#[derive(Drop)]
pub struct NodeLines<'a> {
    node: Node<'a>,
    blocks: Freeblocks<'a>,
    next: NodeLine,
    ghost few: { numbered next + length blocks < 2 ^ 32 },
}

impl<'a> NodeLines<'a> {
    ghost use Rattle.std.specs.Prelude.{◌≡◌, Ok, IfOk, string_bytes};
    ghost use Rattle.sx_lines.specs.Lines.{IsNextLine};
    ghost use Rattle.sx_page_text.specs.NodeText.{node_lines};
    ghost use Rattle.sx_page_text.specs.Rest.{node_rest, IsBehindCells};

    /// All lines of a page.
    pub fn new(node: Node<'a>) -> Self
        ensures { node_rest result ≡ node_lines (Ok node.entry) }
    {
        let blocks = node.freeblocks();
        NodeLines {
            node,
            blocks,
            next: NodeLine::Header,
        }
    }

    // The line of the next freeblock.
    fn next_block(&mut self, number: u32, line: &mut String) -> Result<bool, AllocError>
        requires { self.old.next ≡ NodeLine.Freeblock number }
        ensures { IfOk result (IsNextLine (node_rest self.old) (node_rest self.new) (string_bytes line.new)) }
    {
        let Some(block) = self.blocks.next() else {
            return Ok(false);
        };
        put_block_line(number, block, line)?;
        self.next = NodeLine::Freeblock(number + 1);
        Ok(true)
    }

    // The line of the right-most child, where there is one, else that of the first freeblock.
    fn next_behind_cells(&mut self, line: &mut String) -> Result<bool, AllocError>
        requires { IsBehindCells self.old }
        ensures { IfOk result (IsNextLine (node_rest self.old) (node_rest self.new) (string_bytes line.new)) }
    {
        self.next = NodeLine::Freeblock(0);
        match self.node.right() {
            Some(page) => {
                put_right_line(page, line)?;
                Ok(true)
            }
            None => self.next_block(0, line),
        }
    }
}

impl Lines for NodeLines<'_> {
    ghost use Rattle.sx_page_text.specs.Rest.{node_rest};

    ghost lines = { node_rest };

    fn next_line(&mut self, line: &mut String) -> Result<bool, AllocError> {
        match self.next {
            NodeLine::Header => {
                put_header_line(&self.node, line)?;
                self.next = NodeLine::Cell(0);
                Ok(true)
            }
            NodeLine::Cell(index) if index < self.node.cells() => {
                put_cell_line(&self.node, index, line)?;
                self.next = NodeLine::Cell(index + 1);
                Ok(true)
            }
            NodeLine::Cell(_) => self.next_behind_cells(line),
            NodeLine::Freeblock(number) => self.next_block(number, line),
        }
    }
}
