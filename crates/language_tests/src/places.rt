//! Texts, and where their tokens stop to be a prefix of a program, nest too deep, or are one. `tests/places.py` wrote
//! it, by a recogniser of its own. `{N TEXT}` stands for TEXT N times.

/// What is reported of a text, a bar, and the text.
pub const PLACES: &str = "\
    ok | \n\
    stops 2 | var x 0..9;\n\
    stops 2 | print 1\n\
    stops 1 | x = 1;\n\
    stops 2 | if 1 then end\n\
    stops 1 | print ;\n\
    stops 2 | print 1 2;\n\
    stops 3 | print (1;\n\
    stops 2 | print 1);\n\
    stops 4 | print a[1;\n\
    stops 4 | print a[1);\n\
    stops 3 | print 1 +;\n\
    stops 1 | print * 1;\n\
    ok | print - - - 1;\n\
    stops 2 | print 1 < 2;\n\
    stops 4 | if 1 < 2 < 3 then end\n\
    stops 4 | if 1 < 2 do end\n\
    stops 6 | if 1 < 2 then else else end\n\
    stops 6 | if 1 < 2 then end else end\n\
    stops 0 | else\n\
    stops 0 | end\n\
    stops 4 | x := 1; var y: 0..1;\n\
    stops 5 | proc p() do proc q() do end end\n\
    stops 5 | proc p() do var x: 0..1; end\n\
    stops 9 | proc p(x: 0..1,) do end\n\
    stops 4 | proc p(x) do end\n\
    stops 4 | proc p() end\n\
    stops 3 | array a[]: 0..1;\n\
    stops 3 | array a[-1]: 0..1;\n\
    stops 3 | array a[n]: 0..1;\n\
    stops 6 | var x: 0..--1;\n\
    stops 5 | var x: 0..n;\n\
    stops 3 | var x: (0)..1;\n\
    stops 2 | var x, y: 0..1;\n\
    stops 1 | var if: 0..1;\n\
    stops 2 | for i = 1 to 2 do end\n\
    stops 2 | for a[1] := 1 to 2 do end\n\
    stops 4 | for i := 1 do end\n\
    stops 6 | for i := 1 to 2 limit 3 do end\n\
    stops 4 | while 1 < 2 do end\n\
    stops 5 | while 1 < 2 limit n do end\n\
    stops 6 | while 1 < 2 limit 1 + 1 do end\n\
    stops 5 | while 1 < 2 limit -1 do end\n\
    stops 1 | f;\n\
    stops 3 | f() := 1;\n\
    stops 2 | f(,);\n\
    stops 4 | f(1,);\n\
    stops 3 | f(1 2);\n\
    stops 3 | f()\n\
    stops 4 | a[1];\n\
    stops 4 | a[1](2);\n\
    stops 1 | read 1;\n\
    stops 2 | read f();\n\
    stops 2 | print f();\n\
    stops 0 | 1 := x;\n\
    stops 3 | x := y := 1;\n\
    stops 2 | x := ;\n\
    stops 0 | ; print 1;\n\
    stops 3 | print 1;;\n\
    ok | print {200 (}1{200 )};\n\
    deep 201 | print {201 (}1{201 )};\n\
    ok | print {200 -}1;\n\
    deep 201 | print {201 -}1;\n\
    ok | print 1{200 +1};\n\
    deep 402 | print 1{201 *1};\n\
    ok | print {100 -}1{100  mod 1};\n\
    deep 302 | print {100 -}1{101  div 1};\n\
    ok | print {200 a[}1{200 ]};\n\
    deep 402 | print {201 a[}1{201 ]};\n\
    ok | a[{200 -}1] := {200 -}1;\n\
    deep 202 | a[{201 -}1] := 1;\n\
    deep 205 | a[1] := {201 -}1;\n\
    ok | read a[{200 -}1];\n\
    deep 203 | read a[{201 -}1];\n\
    ok | f({200 -}1, {200 -}1);\n\
    deep 404 | f({200 -}1, {201 -}1);\n\
    ok | if {200 -}1 < {200 -}1 then end\n\
    deep 201 | if {201 -}1 < 1 then end\n\
    deep 203 | if 1 < {201 -}1 then end\n\
    ok | for i := {200 -}1 to {200 -}1 do end\n\
    deep 203 | for i := {201 -}1 to 1 do end\n\
    deep 205 | for i := 1 to {201 -}1 do end\n\
    deep 403 | while {200 -}1 = {201 -}1 limit 1 do end\n\
    ok | {64 if 1 < 2 then }{64 end }\n\
    deep 320 | {65 if 1 < 2 then }{65 end }\n\
    ok | {32 for i := 1 to 2 do while 1 < 2 limit 3 do }{64 end }\n\
    deep 448 | {32 for i := 1 to 2 do while 1 < 2 limit 3 do }for\n\
    deep 326 | {64 if 1 < 2 then }end {64 if 1 < 2 then }\n\
    ok | proc p() do {64 if 1 < 2 then }{64 end }end {64 if 1 < 2 then }{64 end }\n\
    deep 325 | proc p() do {65 if 1 < 2 then }\n\
    deep 384 | {64 if 1 < 2 then else }while\n\
    stops 321 | {64 if 1 < 2 then }print;\n\
    stops 201 | print {200 -};\n\
    deep 201 | print {201 -};\n\
    stops 402 | print {200 (}1{201 )};\n\
    stops 203 | if 1 < {200 -};\n\
    ok | var x: 0..9; var y: -9..-1; x := 1; y := 0 - 2;\n\
    stops 1 | var : 0 .. 9 ; var y : - 9 .. - 1 ; x := 1 ; y := 0 - 2 ;\n\
    stops 2 | var x ; 0 .. 9 ; var y : - 9 .. - 1 ; x := 1 ; y := 0 - 2 ;\n\
    stops 3 | var x :\n\
    stops 4 | var x : 0 9 ; var y : - 9 .. - 1 ; x := 1 ; y := 0 - 2 ;\n\
    stops 5 | var x : 0 .. + ; var y : - 9 .. - 1 ; x := 1 ; y := 0 - 2 ;\n\
    stops 6 | var x : 0 .. 9\n\
    stops 8 | var x : 0 .. 9 ; y : - 9 .. - 1 ; x := 1 ; y := 0 - 2 ;\n\
    ok | var x : 0 .. 9 ; var n : - 9 .. - 1 ; x := 1 ; y := 0 - 2 ;\n\
    stops 9 | var x : 0 .. 9 ; var y\n\
    ok | var x : 0 .. 9 ; var y : 9 .. - 1 ; x := 1 ; y := 0 - 2 ;\n\
    stops 11 | var x : 0 .. 9 ; var y : - end .. - 1 ; x := 1 ; y := 0 - 2 ;\n\
    stops 12 | var x : 0 .. 9 ; var y : - 9\n\
    ok | var x : 0 .. 9 ; var y : - 9 .. 1 ; x := 1 ; y := 0 - 2 ;\n\
    stops 14 | var x : 0 .. 9 ; var y : - 9 .. - then ; x := 1 ; y := 0 - 2 ;\n\
    stops 15 | var x : 0 .. 9 ; var y : - 9 .. - 1\n\
    stops 16 | var x : 0 .. 9 ; var y : - 9 .. - 1 ; := 1 ; y := 0 - 2 ;\n\
    stops 17 | var x : 0 .. 9 ; var y : - 9 .. - 1 ; x 7 1 ; y := 0 - 2 ;\n\
    stops 18 | var x : 0 .. 9 ; var y : - 9 .. - 1 ; x :=\n\
    stops 19 | var x : 0 .. 9 ; var y : - 9 .. - 1 ; x := 1 y := 0 - 2 ;\n\
    stops 20 | var x : 0 .. 9 ; var y : - 9 .. - 1 ; x := 1 ; ) := 0 - 2 ;\n\
    stops 21 | var x : 0 .. 9 ; var y : - 9 .. - 1 ; x := 1 ; y\n\
    ok | var x : 0 .. 9 ; var y : - 9 .. - 1 ; x := 1 ; y := - 2 ;\n\
    stops 23 | var x : 0 .. 9 ; var y : - 9 .. - 1 ; x := 1 ; y := 0 var 2 ;\n\
    stops 24 | var x : 0 .. 9 ; var y : - 9 .. - 1 ; x := 1 ; y := 0 -\n\
    stops 25 | var x : 0 .. 9 ; var y : - 9 .. - 1 ; x := 1 ; y := 0 - 2\n\
    ok | array a[3]: -1..1; a[0] := 1; read a[1 + 1]; print a[a[2]];\n\
    stops 4 | a [ 3 ] : - 1 .. 1 ; a [ 0 ] := 1 ; read a [ 1 + 1 ] ; print a [ a [ 2 ] ] ;\n\
    stops 1 | array end [ 3 ] : - 1 .. 1 ; a [ 0 ] := 1 ; read a [ 1 + 1 ] ; print a [ a [ 2 ] ] ;\n\
    stops 2 | array a\n\
    stops 3 | array a [ ] : - 1 .. 1 ; a [ 0 ] := 1 ; read a [ 1 + 1 ] ; print a [ a [ 2 ] ] ;\n\
    stops 4 | array a [ 3 then : - 1 .. 1 ; a [ 0 ] := 1 ; read a [ 1 + 1 ] ; print a [ a [ 2 ] ] ;\n\
    stops 5 | array a [ 3 ]\n\
    ok | array a [ 3 ] : 1 .. 1 ; a [ 0 ] := 1 ; read a [ 1 + 1 ] ; print a [ a [ 2 ] ] ;\n\
    ok | array a [ 3 ] : - 7 .. 1 ; a [ 0 ] := 1 ; read a [ 1 + 1 ] ; print a [ a [ 2 ] ] ;\n\
    stops 8 | array a [ 3 ] : - 1\n\
    stops 9 | array a [ 3 ] : - 1 .. ; a [ 0 ] := 1 ; read a [ 1 + 1 ] ; print a [ a [ 2 ] ] ;\n\
    stops 10 | array a [ 3 ] : - 1 .. 1 ) a [ 0 ] := 1 ; read a [ 1 + 1 ] ; print a [ a [ 2 ] ] ;\n\
    ok | array a [ 3 ] : - 1 .. 1 ;\n\
    stops 12 | array a [ 3 ] : - 1 .. 1 ; a 0 ] := 1 ; read a [ 1 + 1 ] ; print a [ a [ 2 ] ] ;\n\
    stops 13 | array a [ 3 ] : - 1 .. 1 ; a [ var ] := 1 ; read a [ 1 + 1 ] ; print a [ a [ 2 ] ] ;\n\
    stops 14 | array a [ 3 ] : - 1 .. 1 ; a [ 0\n\
    stops 15 | array a [ 3 ] : - 1 .. 1 ; a [ 0 ] 1 ; read a [ 1 + 1 ] ; print a [ a [ 2 ] ] ;\n\
    stops 16 | array a [ 3 ] : - 1 .. 1 ; a [ 0 ] := ; ; read a [ 1 + 1 ] ; print a [ a [ 2 ] ] ;\n\
    stops 17 | array a [ 3 ] : - 1 .. 1 ; a [ 0 ] := 1\n\
    stops 24 | array a [ 3 ] : - 1 .. 1 ; a [ 0 ] := 1 ; a [ 1 + 1 ] ; print a [ a [ 2 ] ] ;\n\
    stops 19 | array a [ 3 ] : - 1 .. 1 ; a [ 0 ] := 1 ; read + [ 1 + 1 ] ; print a [ a [ 2 ] ] ;\n\
    stops 20 | array a [ 3 ] : - 1 .. 1 ; a [ 0 ] := 1 ; read a\n\
    stops 21 | array a [ 3 ] : - 1 .. 1 ; a [ 0 ] := 1 ; read a [ + 1 ] ; print a [ a [ 2 ] ] ;\n\
    stops 22 | array a [ 3 ] : - 1 .. 1 ; a [ 0 ] := 1 ; read a [ 1 n 1 ] ; print a [ a [ 2 ] ] ;\n\
    stops 23 | array a [ 3 ] : - 1 .. 1 ; a [ 0 ] := 1 ; read a [ 1 +\n\
    stops 24 | array a [ 3 ] : - 1 .. 1 ; a [ 0 ] := 1 ; read a [ 1 + 1 ; print a [ a [ 2 ] ] ;\n\
    stops 25 | array a [ 3 ] : - 1 .. 1 ; a [ 0 ] := 1 ; read a [ 1 + 1 ] end print a [ a [ 2 ] ] ;\n\
    ok | array a [ 3 ] : - 1 .. 1 ; a [ 0 ] := 1 ; read a [ 1 + 1 ] ;\n\
    stops 27 | array a [ 3 ] : - 1 .. 1 ; a [ 0 ] := 1 ; read a [ 1 + 1 ] ; print [ a [ 2 ] ] ;\n\
    stops 28 | array a [ 3 ] : - 1 .. 1 ; a [ 0 ] := 1 ; read a [ 1 + 1 ] ; print a then a [ 2 ] ] ;\n\
    stops 29 | array a [ 3 ] : - 1 .. 1 ; a [ 0 ] := 1 ; read a [ 1 + 1 ] ; print a [\n\
    stops 30 | array a [ 3 ] : - 1 .. 1 ; a [ 0 ] := 1 ; read a [ 1 + 1 ] ; print a [ a 2 ] ] ;\n\
    ok | array a [ 3 ] : - 1 .. 1 ; a [ 0 ] := 1 ; read a [ 1 + 1 ] ; print a [ a [ 7 ] ] ;\n\
    stops 32 | array a [ 3 ] : - 1 .. 1 ; a [ 0 ] := 1 ; read a [ 1 + 1 ] ; print a [ a [ 2\n\
    stops 33 | array a [ 3 ] : - 1 .. 1 ; a [ 0 ] := 1 ; read a [ 1 + 1 ] ; print a [ a [ 2 ] ;\n\
    stops 34 | array a [ 3 ] : - 1 .. 1 ; a [ 0 ] := 1 ; read a [ 1 + 1 ] ; print a [ a [ 2 ] ] )\n\
    ok | proc p() do end p();\n\
    stops 0 | ) p ( ) do end p ( ) ;\n\
    stops 1 | proc\n\
    stops 2 | proc p ) do end p ( ) ;\n\
    stops 3 | proc p ( var do end p ( ) ;\n\
    stops 4 | proc p ( )\n\
    stops 9 | proc p ( ) do p ( ) ;\n\
    stops 6 | proc p ( ) do end ; ( ) ;\n\
    stops 7 | proc p ( ) do end p\n\
    stops 8 | proc p ( ) do end p ( ;\n\
    stops 9 | proc p ( ) do end p ( ) +\n\
    ok | proc q(x: 0..9, y: 1..2) var z: 0..1; var w: 3..4; do z := x; print w; end q(1, 2 + 3);\n\
    stops 1 | proc ( x : 0 .. 9 , y : 1 .. 2 ) var z : 0 .. 1 ; var w : 3 .. 4 ; do z := x ; print w ; end q ( 1 , 2 + 3 ) ;\n\
    stops 2 | proc q n x : 0 .. 9 , y : 1 .. 2 ) var z : 0 .. 1 ; var w : 3 .. 4 ; do z := x ; print w ; end q ( 1 , 2 + 3 ) ;\n\
    stops 3 | proc q (\n\
    stops 4 | proc q ( x 0 .. 9 , y : 1 .. 2 ) var z : 0 .. 1 ; var w : 3 .. 4 ; do z := x ; print w ; end q ( 1 , 2 + 3 ) ;\n\
    stops 5 | proc q ( x : end .. 9 , y : 1 .. 2 ) var z : 0 .. 1 ; var w : 3 .. 4 ; do z := x ; print w ; end q ( 1 , 2 + 3 ) ;\n\
    stops 6 | proc q ( x : 0\n\
    stops 7 | proc q ( x : 0 .. , y : 1 .. 2 ) var z : 0 .. 1 ; var w : 3 .. 4 ; do z := x ; print w ; end q ( 1 , 2 + 3 ) ;\n\
    stops 8 | proc q ( x : 0 .. 9 then y : 1 .. 2 ) var z : 0 .. 1 ; var w : 3 .. 4 ; do z := x ; print w ; end q ( 1 , 2 + 3 ) ;\n\
    stops 9 | proc q ( x : 0 .. 9 ,\n\
    stops 10 | proc q ( x : 0 .. 9 , y 1 .. 2 ) var z : 0 .. 1 ; var w : 3 .. 4 ; do z := x ; print w ; end q ( 1 , 2 + 3 ) ;\n\
    ok | proc q ( x : 0 .. 9 , y : 7 .. 2 ) var z : 0 .. 1 ; var w : 3 .. 4 ; do z := x ; print w ; end q ( 1 , 2 + 3 ) ;\n\
    stops 12 | proc q ( x : 0 .. 9 , y : 1\n\
    stops 13 | proc q ( x : 0 .. 9 , y : 1 .. ) var z : 0 .. 1 ; var w : 3 .. 4 ; do z := x ; print w ; end q ( 1 , 2 + 3 ) ;\n\
    ok | proc q ( x : 0 .. 9 , y : 1 .. 2 ) var z : 0 .. 1 ; var w : 3 .. 4 ; do z := x ; print w ; end q ( 1 , 2 + 3 ) ;\n\
    stops 15 | proc q ( x : 0 .. 9 , y : 1 .. 2 )\n\
    stops 16 | proc q ( x : 0 .. 9 , y : 1 .. 2 ) var : 0 .. 1 ; var w : 3 .. 4 ; do z := x ; print w ; end q ( 1 , 2 + 3 ) ;\n\
    stops 17 | proc q ( x : 0 .. 9 , y : 1 .. 2 ) var z var 0 .. 1 ; var w : 3 .. 4 ; do z := x ; print w ; end q ( 1 , 2 + 3 ) ;\n\
    stops 18 | proc q ( x : 0 .. 9 , y : 1 .. 2 ) var z :\n\
    stops 19 | proc q ( x : 0 .. 9 , y : 1 .. 2 ) var z : 0 1 ; var w : 3 .. 4 ; do z := x ; print w ; end q ( 1 , 2 + 3 ) ;\n\
    stops 20 | proc q ( x : 0 .. 9 , y : 1 .. 2 ) var z : 0 .. ; ; var w : 3 .. 4 ; do z := x ; print w ; end q ( 1 , 2 + 3 ) ;\n\
    stops 21 | proc q ( x : 0 .. 9 , y : 1 .. 2 ) var z : 0 .. 1\n\
    stops 22 | proc q ( x : 0 .. 9 , y : 1 .. 2 ) var z : 0 .. 1 ; w : 3 .. 4 ; do z := x ; print w ; end q ( 1 , 2 + 3 ) ;\n\
    stops 23 | proc q ( x : 0 .. 9 , y : 1 .. 2 ) var z : 0 .. 1 ; var + : 3 .. 4 ; do z := x ; print w ; end q ( 1 , 2 + 3 ) ;\n\
    stops 24 | proc q ( x : 0 .. 9 , y : 1 .. 2 ) var z : 0 .. 1 ; var w\n\
    stops 25 | proc q ( x : 0 .. 9 , y : 1 .. 2 ) var z : 0 .. 1 ; var w : .. 4 ; do z := x ; print w ; end q ( 1 , 2 + 3 ) ;\n\
    stops 26 | proc q ( x : 0 .. 9 , y : 1 .. 2 ) var z : 0 .. 1 ; var w : 3 n 4 ; do z := x ; print w ; end q ( 1 , 2 + 3 ) ;\n\
    stops 27 | proc q ( x : 0 .. 9 , y : 1 .. 2 ) var z : 0 .. 1 ; var w : 3 ..\n\
    stops 28 | proc q ( x : 0 .. 9 , y : 1 .. 2 ) var z : 0 .. 1 ; var w : 3 .. 4 do z := x ; print w ; end q ( 1 , 2 + 3 ) ;\n\
    stops 29 | proc q ( x : 0 .. 9 , y : 1 .. 2 ) var z : 0 .. 1 ; var w : 3 .. 4 ; end z := x ; print w ; end q ( 1 , 2 + 3 ) ;\n\
    stops 30 | proc q ( x : 0 .. 9 , y : 1 .. 2 ) var z : 0 .. 1 ; var w : 3 .. 4 ; do\n\
    stops 31 | proc q ( x : 0 .. 9 , y : 1 .. 2 ) var z : 0 .. 1 ; var w : 3 .. 4 ; do z x ; print w ; end q ( 1 , 2 + 3 ) ;\n\
    stops 32 | proc q ( x : 0 .. 9 , y : 1 .. 2 ) var z : 0 .. 1 ; var w : 3 .. 4 ; do z := then ; print w ; end q ( 1 , 2 + 3 ) ;\n\
    stops 33 | proc q ( x : 0 .. 9 , y : 1 .. 2 ) var z : 0 .. 1 ; var w : 3 .. 4 ; do z := x\n\
    stops 35 | proc q ( x : 0 .. 9 , y : 1 .. 2 ) var z : 0 .. 1 ; var w : 3 .. 4 ; do z := x ; w ; end q ( 1 , 2 + 3 ) ;\n\
    ok | proc q ( x : 0 .. 9 , y : 1 .. 2 ) var z : 0 .. 1 ; var w : 3 .. 4 ; do z := x ; print 7 ; end q ( 1 , 2 + 3 ) ;\n\
    stops 36 | proc q ( x : 0 .. 9 , y : 1 .. 2 ) var z : 0 .. 1 ; var w : 3 .. 4 ; do z := x ; print w\n\
    stops 46 | proc q ( x : 0 .. 9 , y : 1 .. 2 ) var z : 0 .. 1 ; var w : 3 .. 4 ; do z := x ; print w ; q ( 1 , 2 + 3 ) ;\n\
    stops 38 | proc q ( x : 0 .. 9 , y : 1 .. 2 ) var z : 0 .. 1 ; var w : 3 .. 4 ; do z := x ; print w ; end ) ( 1 , 2 + 3 ) ;\n\
    stops 39 | proc q ( x : 0 .. 9 , y : 1 .. 2 ) var z : 0 .. 1 ; var w : 3 .. 4 ; do z := x ; print w ; end q\n\
    stops 40 | proc q ( x : 0 .. 9 , y : 1 .. 2 ) var z : 0 .. 1 ; var w : 3 .. 4 ; do z := x ; print w ; end q ( , 2 + 3 ) ;\n\
    stops 41 | proc q ( x : 0 .. 9 , y : 1 .. 2 ) var z : 0 .. 1 ; var w : 3 .. 4 ; do z := x ; print w ; end q ( 1 var 2 + 3 ) ;\n\
    stops 42 | proc q ( x : 0 .. 9 , y : 1 .. 2 ) var z : 0 .. 1 ; var w : 3 .. 4 ; do z := x ; print w ; end q ( 1 ,\n\
    stops 43 | proc q ( x : 0 .. 9 , y : 1 .. 2 ) var z : 0 .. 1 ; var w : 3 .. 4 ; do z := x ; print w ; end q ( 1 , 2 3 ) ;\n\
    stops 44 | proc q ( x : 0 .. 9 , y : 1 .. 2 ) var z : 0 .. 1 ; var w : 3 .. 4 ; do z := x ; print w ; end q ( 1 , 2 + ; ) ;\n\
    stops 45 | proc q ( x : 0 .. 9 , y : 1 .. 2 ) var z : 0 .. 1 ; var w : 3 .. 4 ; do z := x ; print w ; end q ( 1 , 2 + 3\n\
    stops 46 | proc q ( x : 0 .. 9 , y : 1 .. 2 ) var z : 0 .. 1 ; var w : 3 .. 4 ; do z := x ; print w ; end q ( 1 , 2 + 3 )\n\
    ok | if x < 1 then print 1; end\n\
    stops 1 | x < 1 then print 1 ; end\n\
    ok | if 7 < 1 then print 1 ; end\n\
    stops 2 | if x\n\
    stops 3 | if x < then print 1 ; end\n\
    stops 4 | if x < 1 ) print 1 ; end\n\
    stops 5 | if x < 1 then\n\
    stops 6 | if x < 1 then print ; end\n\
    stops 7 | if x < 1 then print 1 var end\n\
    stops 8 | if x < 1 then print 1 ;\n\
    ok | if x <= 1 then else end\n\
    stops 0 | ; x <= 1 then else end\n\
    stops 1 | if\n\
    stops 2 | if x 1 then else end\n\
    stops 3 | if x <= + then else end\n\
    stops 4 | if x <= 1\n\
    ok | if x <= 1 then end\n\
    stops 7 | if x <= 1 then else n\n\
    ok | if x > 1 then x := 1; else x := 2; y := 3; end\n\
    stops 1 | if > 1 then x := 1 ; else x := 2 ; y := 3 ; end\n\
    stops 2 | if x then 1 then x := 1 ; else x := 2 ; y := 3 ; end\n\
    stops 3 | if x >\n\
    stops 4 | if x > 1 x := 1 ; else x := 2 ; y := 3 ; end\n\
    stops 5 | if x > 1 then 7 := 1 ; else x := 2 ; y := 3 ; end\n\
    stops 6 | if x > 1 then x\n\
    stops 7 | if x > 1 then x := ; else x := 2 ; y := 3 ; end\n\
    stops 8 | if x > 1 then x := 1 ) else x := 2 ; y := 3 ; end\n\
    stops 9 | if x > 1 then x := 1 ;\n\
    stops 10 | if x > 1 then x := 1 ; else := 2 ; y := 3 ; end\n\
    stops 11 | if x > 1 then x := 1 ; else x var 2 ; y := 3 ; end\n\
    stops 12 | if x > 1 then x := 1 ; else x :=\n\
    stops 13 | if x > 1 then x := 1 ; else x := 2 y := 3 ; end\n\
    stops 14 | if x > 1 then x := 1 ; else x := 2 ; ; := 3 ; end\n\
    stops 15 | if x > 1 then x := 1 ; else x := 2 ; y\n\
    stops 16 | if x > 1 then x := 1 ; else x := 2 ; y := ; end\n\
    stops 18 | if x > 1 then x := 1 ; else x := 2 ; y := 3 + end\n\
    stops 18 | if x > 1 then x := 1 ; else x := 2 ; y := 3 ;\n\
    ok | for i := 1 to 2 * 3 do print i; end\n\
    stops 3 | i := 1 to 2 * 3 do print i ; end\n\
    stops 1 | for var := 1 to 2 * 3 do print i ; end\n\
    stops 2 | for i\n\
    stops 3 | for i := to 2 * 3 do print i ; end\n\
    stops 4 | for i := 1 ; 2 * 3 do print i ; end\n\
    stops 5 | for i := 1 to\n\
    stops 6 | for i := 1 to 2 3 do print i ; end\n\
    stops 7 | for i := 1 to 2 * + do print i ; end\n\
    stops 8 | for i := 1 to 2 * 3\n\
    stops 10 | for i := 1 to 2 * 3 do i ; end\n\
    ok | for i := 1 to 2 * 3 do print n ; end\n\
    stops 11 | for i := 1 to 2 * 3 do print i\n\
    stops 12 | for i := 1 to 2 * 3 do print i ;\n\
    ok | while x >= 1 limit 5 do x := x - 1; end\n\
    stops 1 | n x >= 1 limit 5 do x := x - 1 ; end\n\
    stops 1 | while\n\
    stops 2 | while x 1 limit 5 do x := x - 1 ; end\n\
    stops 3 | while x >= end limit 5 do x := x - 1 ; end\n\
    stops 4 | while x >= 1\n\
    stops 5 | while x >= 1 limit do x := x - 1 ; end\n\
    stops 6 | while x >= 1 limit 5 then x := x - 1 ; end\n\
    stops 7 | while x >= 1 limit 5 do\n\
    stops 8 | while x >= 1 limit 5 do x x - 1 ; end\n\
    ok | while x >= 1 limit 5 do x := 7 - 1 ; end\n\
    stops 10 | while x >= 1 limit 5 do x := x\n\
    stops 11 | while x >= 1 limit 5 do x := x - ; end\n\
    stops 12 | while x >= 1 limit 5 do x := x - 1 ) end\n\
    stops 13 | while x >= 1 limit 5 do x := x - 1 ;\n\
    ok | while - x = ( 1 ) limit 0 do if 1 <> 2 then end end\n\
    ok | while x = ( 1 ) limit 0 do if 1 <> 2 then end end\n\
    stops 2 | while - ) = ( 1 ) limit 0 do if 1 <> 2 then end end\n\
    stops 3 | while - x\n\
    stops 5 | while - x = 1 ) limit 0 do if 1 <> 2 then end end\n\
    stops 5 | while - x = ( var ) limit 0 do if 1 <> 2 then end end\n\
    stops 6 | while - x = ( 1\n\
    stops 7 | while - x = ( 1 ) 0 do if 1 <> 2 then end end\n\
    stops 8 | while - x = ( 1 ) limit ; do if 1 <> 2 then end end\n\
    stops 9 | while - x = ( 1 ) limit 0\n\
    stops 10 | while - x = ( 1 ) limit 0 do 1 <> 2 then end end\n\
    stops 11 | while - x = ( 1 ) limit 0 do if + <> 2 then end end\n\
    stops 12 | while - x = ( 1 ) limit 0 do if 1\n\
    stops 13 | while - x = ( 1 ) limit 0 do if 1 <> then end end\n\
    stops 14 | while - x = ( 1 ) limit 0 do if 1 <> 2 n end end\n\
    stops 15 | while - x = ( 1 ) limit 0 do if 1 <> 2 then\n\
    stops 16 | while - x = ( 1 ) limit 0 do if 1 <> 2 then end\n\
    ok | print 1 + 2 * 3 div 4 mod 5 - - 6;\n\
    stops 0 | 1 + 2 * 3 div 4 mod 5 - - 6 ;\n\
    stops 1 | print + + 2 * 3 div 4 mod 5 - - 6 ;\n\
    stops 3 | print 1 + * 3 div 4 mod 5 - - 6 ;\n\
    stops 4 | print 1 + 2 n 3 div 4 mod 5 - - 6 ;\n\
    stops 5 | print 1 + 2 *\n\
    stops 6 | print 1 + 2 * 3 4 mod 5 - - 6 ;\n\
    stops 7 | print 1 + 2 * 3 div end mod 5 - - 6 ;\n\
    stops 8 | print 1 + 2 * 3 div 4\n\
    ok | print 1 + 2 * 3 div 4 mod - - 6 ;\n\
    stops 10 | print 1 + 2 * 3 div 4 mod 5 then - 6 ;\n\
    stops 11 | print 1 + 2 * 3 div 4 mod 5 -\n\
    stops 12 | print 1 + 2 * 3 div 4 mod 5 - - ;\n\
    stops 13 | print 1 + 2 * 3 div 4 mod 5 - - 6 7\n\
    ok | print ( 1 + ( 2 ) ) * a[ ( 3 ) ];\n\
    stops 0 | then ( 1 + ( 2 ) ) * a [ ( 3 ) ] ;\n\
    stops 1 | print\n\
    stops 2 | print ( + ( 2 ) ) * a [ ( 3 ) ] ;\n\
    stops 3 | print ( 1 7 ( 2 ) ) * a [ ( 3 ) ] ;\n\
    stops 4 | print ( 1 +\n\
    stops 5 | print ( 1 + ( ) ) * a [ ( 3 ) ] ;\n\
    ok | print ( 1 + ( 2 ) ) * a [ ( 3 ) ] ;\n\
    stops 7 | print ( 1 + ( 2 )\n\
    stops 8 | print ( 1 + ( 2 ) ) a [ ( 3 ) ] ;\n\
    stops 9 | print ( 1 + ( 2 ) ) * var [ ( 3 ) ] ;\n\
    stops 10 | print ( 1 + ( 2 ) ) * a\n\
    stops 12 | print ( 1 + ( 2 ) ) * a [ 3 ) ] ;\n\
    stops 12 | print ( 1 + ( 2 ) ) * a [ ( ; ) ] ;\n\
    stops 13 | print ( 1 + ( 2 ) ) * a [ ( 3\n\
    stops 14 | print ( 1 + ( 2 ) ) * a [ ( 3 ) ;\n\
    stops 16 | print ( 1 + ( 2 ) ) * a [ ( 3 ) ] +\n\
    ok | read x; f(a[1], (2), -3);\n\
    stops 1 | read ; f ( a [ 1 ] , ( 2 ) , - 3 ) ;\n\
    ok | read x ; f ( a [ 1 ] , ( 2 ) , - 3 ) ;\n\
    ok | read x ;\n\
    stops 4 | read x ; f a [ 1 ] , ( 2 ) , - 3 ) ;\n\
    stops 5 | read x ; f ( + [ 1 ] , ( 2 ) , - 3 ) ;\n\
    stops 6 | read x ; f ( a\n\
    stops 7 | read x ; f ( a [ ] , ( 2 ) , - 3 ) ;\n\
    stops 8 | read x ; f ( a [ 1 n , ( 2 ) , - 3 ) ;\n\
    stops 9 | read x ; f ( a [ 1 ]\n\
    stops 12 | read x ; f ( a [ 1 ] , 2 ) , - 3 ) ;\n\
    stops 11 | read x ; f ( a [ 1 ] , ( end ) , - 3 ) ;\n\
    stops 12 | read x ; f ( a [ 1 ] , ( 2\n\
    ok | read x ; f ( a [ 1 ] , ( 2 ) - 3 ) ;\n\
    stops 14 | read x ; f ( a [ 1 ] , ( 2 ) , then 3 ) ;\n\
    stops 15 | read x ; f ( a [ 1 ] , ( 2 ) , -\n\
    stops 16 | read x ; f ( a [ 1 ] , ( 2 ) , - 3 ;\n\
    stops 17 | read x ; f ( a [ 1 ] , ( 2 ) , - 3 ) 7\n\
    ";
